// A refusal of what reads tag after tag.
ghost use Rattle.std.specs.Prelude.{◌≡◌};

use crate::refusal::Refusal;

// A refusal, and how many tags were read before it.
#[derive(Clone, Copy)]
pub struct CountedRefusal {
    pub refusal: Refusal,
    pub tags: usize,
}

// Where no tag is counted yet, a refusal is passed on with none.
impl From<Refusal> for CountedRefusal {
    ghost from_gives = { λ r counted. (counted.refusal ≡ r) × (counted.tags ≡ 0) };

    fn from(refusal: Refusal) -> Self {
        CountedRefusal { refusal, tags: 0 }
    }
}
