// What is lent to a call: the texts, and the four areas of words in which all is kept, since there is no heap.
//
// The areas go in one of three structs, by what is written. A function that is lent them promises that they are the same areas still, each with as
// many words (specs/Lent.antt says how), so that its caller knows what stands in its own. Where an area that is lent to be written is only read, it is
// written `&mut *areas.heap`, or so with its name: the check has no rule for a part of a lent struct that is lent as `&`.
#![tactic(auto)]

// The three texts of a release. A function that reads two of them says nothing of the third, which may be any.
#[derive(Clone, Copy)]
pub struct Texts<'a> {
    pub rulebook: &'a [u8],
    pub goals: &'a [u8],
    pub certificate: &'a [u8],
}

// The four areas, each named by what it holds while a release is checked: the nodes; goals, abbreviations and steps; what is under
// construction; the rulebook's theory with a step's bindings. Not copied, as no lent area is, and so for the other two.
#[derive(Drop)]
pub struct Areas<'a> {
    pub store: &'a mut [u32],
    pub table: &'a mut [u32],
    pub stack: &'a mut [u32],
    pub heap: &'a mut [u32],
}

// The same while a goal or an abbreviation is read, which only reads the theory.
#[derive(Drop)]
pub struct GoalAreas<'a> {
    pub store: &'a mut [u32],
    pub table: &'a mut [u32],
    pub stack: &'a mut [u32],
    pub heap: &'a [u32],
}

// The same while a step is read and judged, which only reads the table.
#[derive(Drop)]
pub struct StepAreas<'a> {
    pub store: &'a mut [u32],
    pub table: &'a [u32],
    pub stack: &'a mut [u32],
    pub heap: &'a mut [u32],
}
