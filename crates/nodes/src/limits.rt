// 01's limits where goals and certificate are read (specs/Limits.antt says the same of the models).
use arena::Setting;

// "At most 2,048 nodes and 8,192 words", and the places of the store's index.
pub const STORE: Setting = Setting {
    nodes: 2048,
    words: 8192,
    places: 4096,
};

// Buckets of abbreviations. With those of goals they are fewer than the 297 that the table has room for (crate capacity).
pub const DEF_BUCKETS: u32 = 192;
