// L2: "The name shown is a returned part of the rulebook or of the goals text."
#![tactic(auto)]

ghost use Rattle.std.specs.Prelude.{◌≡◌};
ghost use Rattle.names.specs.Chains.{name_at};
ghost use Rattle.shown_names.specs.Shown.{of_two};

// The name of the entry at e of an area, which has its bounds in the rulebook or in the goals text. The flag says in which: what is returned is a part of one
// of two texts that are both lent, as the paper asks.
#[tactic(auto, unfolding(names::specs::Chains::name_at))]
pub fn shown<'a>(
    in_rulebook: bool,
    rulebook: &'a [u8],
    goals: &'a [u8],
    area: &[u32],
    e: u32,
) -> &'a [u8]
    ensures { result.now ≡ name_at area.now (of_two in_rulebook rulebook.now goals.now) e }
{
    let start = words::at(area, e as usize);
    let end = words::at(area, e as usize + 1);
    if in_rulebook {
        return words::part(rulebook, start as usize, end as usize);
    }
    words::part(goals, start as usize, end as usize)
}
