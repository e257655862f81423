// The variables of a line, one after the other.
use crate::variable::Dtv;

/// The variables of a line that are left to go over, the left one before the right.
#[derive(Drop)]
pub struct Sides<'a> {
    left: Option<&'a Dtv>,
    right: Option<&'a Dtv>,
}

impl<'a> Sides<'a> {
    ghost use Rattle.std.specs.Prelude.{◌≡◌, [], ◌∷◌};
    ghost use Rattle.rt_lines.specs.SidesLeft.{sides_left};

    // One variable.
    pub fn one(x: &'a Dtv) -> Sides<'a>
        ensures { sides_left result ≡ x.now ∷ [] }
    {
        Sides {
            left: Some(x),
            right: None,
        }
    }

    // Two variables.
    pub fn two(x: &'a Dtv, y: &'a Dtv) -> Sides<'a>
        ensures { sides_left result ≡ x.now ∷ y.now ∷ [] }
    {
        Sides {
            left: Some(x),
            right: Some(y),
        }
    }
}

impl<'a> Iterator for Sides<'a> {
    ghost use Rattle.std.specs.Iterator.{YieldsFirstRef, item_count};
    ghost use Rattle.rt_lines.specs.SidesLeft.{sides_left};

    type Item = &'a Dtv;

    ghost next_gives = { YieldsFirstRef sides_left };

    ghost remaining = { item_count sides_left };

    fn next(&mut self) -> Option<&'a Dtv> {
        match self.left.take() {
            Some(x) => Some(x),
            None => self.right.take(),
        }
    }
}
