// Both walks over a rulebook. The first (crate `sexp`) reads it whole; in the second its declarations are judged in order, and the theory is
// written into its area (crate `items` says how).
#![tactic(auto)]

ghost use Rattle.std.specs.Prelude.{◌≡◌};
ghost use Rattle.outcomes.specs.Leaving.{◌leaving◌};
ghost use Rattle.outcomes.specs.Told.{told, told_as};
ghost use Rattle.theory.specs.Declarations.{next, sized, form_of, declared_by, declaration, counted, more_due};
ghost use Rattle.theory.specs.Declarations.{start_walk, declarations};
ghost use Rattle.theory.specs.Walks.{theory};

use items::{Counted, Walk, places};
use lex::{Read, Reader};
use outcomes::Refusal;

// What a declaration is. `Other` is a case of its own, as in the model: it is refused where it would be declared, after its head was judged.
#[derive(Clone, Copy)]
pub enum Form {
    Sort,
    Constructor,
    Predicate,
    Rule,
    Other,
}

// How many are declared.
#[derive(Clone, Copy, Default)]
pub struct Counts {
    pub sorts: u32,
    pub constructors: u32,
    pub predicates: u32,
    pub rules: u32,
}

// A form if its length is right.
fn sized(right: bool, form: Form) -> Form
    ensures { result ≡ sized right form }
{
    if right {
        return form;
    }
    Form::Other
}

// The form that a head and a length say.
#[tactic(auto, using(words::proofs::Laws::same_pointwise), unfolding(crate::specs::Declarations::form_of, crate::specs::Declarations::form_named))]
fn form_of(text: &[u8], s: usize, t: usize, members: u32) -> Form
    ensures { result ≡ form_of text.now s t members }
{
    let head = words::part(text, s, t);
    if head == b"sort".as_slice() {
        return sized(members == 2, Form::Sort);
    }
    if head == b"ctor".as_slice() {
        return sized(members == 4, Form::Constructor);
    }
    if head == b"pred".as_slice() {
        return sized(members == 3, Form::Predicate);
    }
    if head == b"rule".as_slice() {
        return sized(members == 4, Form::Rule);
    }
    Form::Other
}

// A declaration behind its head, by its form.
fn declare(
    form: Form,
    rulebook: Counted<'_>,
    vars: &mut [u32],
    heap: &mut [u32],
    w: Walk,
) -> Result<Walk, Refusal>
    ensures { (told result leaving (vars.new, heap.new))
        ≡ declared_by form rulebook.entry.text.now rulebook.entry.counts.now w vars.old heap.old }
{
    match form {
        Form::Sort => symbols::declare_sort(rulebook, heap, w),
        Form::Constructor => symbols::declare_constructor(rulebook, heap, w),
        Form::Predicate => symbols::declare_predicate(rulebook, heap, w),
        Form::Rule => rules::declare_rule(rulebook, vars, heap, w),
        Form::Other => Err(Refusal::Form),
    }
}

// One declaration: its form and the walk after it.
#[tactic(auto, unfolding(crate::specs::Declarations::declaration))]
fn judge(
    rulebook: Counted<'_>,
    vars: &mut [u32],
    heap: &mut [u32],
    w: Walk,
) -> Result<(Form, Walk), Refusal>
    ensures { (told result leaving (vars.new, heap.new))
        ≡ declaration rulebook.entry.text.now rulebook.entry.counts.now w vars.old heap.old }
{
    let (members, q) = rulebook.next_list(w)?;
    let (s, t, p) = rulebook.head(members, q)?;
    let form = form_of(rulebook.text, s, t, members);
    let o = declare(form, rulebook, vars, heap, p)?;
    Ok((form, o))
}

// One declaration more of a form.
fn count(c: Counts, form: Form) -> Counts
    ensures { result ≡ counted c form }
{
    match form {
        Form::Sort => Counts {
            sorts: words::plus(c.sorts, 1),
            ..c
        },
        Form::Constructor => Counts {
            constructors: words::plus(c.constructors, 1),
            ..c
        },
        Form::Predicate => Counts {
            predicates: words::plus(c.predicates, 1),
            ..c
        },
        Form::Rule => Counts {
            rules: words::plus(c.rules, 1),
            ..c
        },
        Form::Other => c,
    }
}

// The walk before the next declaration, None where none follows.
#[tactic(auto, using(outcomes::proofs::BadLines::bad_line), unfolding(crate::specs::Declarations::more_due, lex::specs::Answers::answer))]
fn look(text: &[u8], w: Walk) -> Result<Option<Walk>, Refusal>
    ensures { told_as next result ≡ more_due text.now w }
{
    match w.reader.peek(text) {
        Read::End => Ok(None),
        Read::Bad => Err(Refusal::NotUtf8),
        Read::Got(_, reader) => Ok(Some(Walk { reader, ..w })),
    }
}

// A walk before the first declaration.
#[tactic(auto, unfolding(crate::specs::Declarations::start_walk))]
fn begin_walk() -> Walk
    ensures { result ≡ start_walk }
{
    let reader = Reader::new();
    Walk {
        reader,
        opened: 0,
        top: places::ENTRIES,
        variables: 0,
    }
}

// The second walk, over a rulebook that the first walk read whole.
#[tactic(auto, using(crate::proofs::Turns::turns), unfolding(crate::specs::Declarations::declarations, crate::specs::Declarations::no_counts))]
pub fn declarations(
    rulebook: Counted<'_>,
    vars: &mut [u32],
    heap: &mut [u32],
) -> Result<Counts, Refusal>
    ensures { (told result leaving (vars.new, heap.new))
        ≡ declarations rulebook.entry.text.now rulebook.entry.counts.now vars.old heap.old }
{
    let mut w = begin_walk();
    let mut c = Counts::default();
    let turns = rulebook.text.len() / 2 + 1;
    for _ in 0..turns {
        let Some(v) = look(rulebook.text, w)? else {
            return Ok(c);
        };
        let (form, q) = judge(rulebook, vars, heap, v)?;
        w = q;
        c = count(c, form);
    }
    // Out of turns: the laws show that this is never met.
    Err(Refusal::Nesting)
}

// Both walks over a rulebook: the member counts are left in `counts`, the theory in `heap`, whose buckets are cleared first.
#[tactic(auto, using(crate::proofs::Turns::walks), unfolding(sexp::specs::Walk::walk_answer))]
pub fn theory(
    text: &[u8],
    vars: &mut [u32],
    counts: &mut [u32],
    heap: &mut [u32],
) -> Result<Counts, Refusal>
    ensures { (told result leaving (vars.new, counts.new, heap.new))
        ≡ theory text.now vars.old counts.old heap.old }
{
    sexp::count_members(text, counts)?;
    words::clear(heap, places::ALL_BUCKETS);
    declarations(Counted { text, counts }, vars, heap)
}
