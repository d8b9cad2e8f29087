// What the duels tell, or why none were fought. Follows docs/RULES.md, "Duels" and "Refusals", numbers 1 to 5: specs/DuelPromise.antt
// gives each answer its number and values. Types alone.

ghost use Rattle.std.specs.Prelude.{◌≡◌};
ghost use Rattle.duels.specs.declared.answers.Unfought.TheVariants.{Refused};

use order::Refusal;

// How many windows are kept, how many duels were fought, and how many windows were struck before them.
#[derive(Clone, Copy)]
pub struct Duelled {
    pub kept: usize,
    pub fought: u32,
    pub struck: u32,
}

// Why no duels were fought.
#[derive(Clone, Copy)]
pub enum Unfought {
    Refused(Refusal),
    // the lowest offset whose entries name a place and tell no witness; which of the two is wrong, only preparation could tell
    Untold(usize),
}

impl From<Refusal> for Unfought {
    ghost from_gives = { λ why told. told ≡ Refused why };

    fn from(why: Refusal) -> Unfought {
        Unfought::Refused(why)
    }
}
