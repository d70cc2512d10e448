//! The numbers that a script is made of.

ghost use Rattle.std.specs.Prelude.{◌≡◌, ◌%◌, get_or, codes};
ghost use Rattle.case_maker.specs.Scripts.{next_draw};

const MODULUS: u64 = 65537;

/// A sequence of draws, of which none is used twice.
#[derive(Drop)]
pub struct Draws {
    /// The last one, or what the first one follows.
    pub last: u32,
}

impl Draws {
    /// The draws for this number.
    pub fn new(k: u32) -> Draws
        ensures { result.last ≡ k % 65537 }
    {
        Draws {
            last: (u64::from(k) % MODULUS) as u32,
        }
    }

    /// The next draw.
    pub fn draw(&mut self) -> u32
        ensures value { result ≡ next_draw self.old.last }
        ensures last { self.new.last ≡ next_draw self.old.last }
    {
        self.last = ((u64::from(self.last) * 75 + 74) % MODULUS) as u32;
        self.last
    }
}

/// The name of the variable of this draw.
pub fn variable(draw: u32) -> u8
    ensures { result ≡ get_or (codes "xyabz") (draw % 5) 0 }
{
    b"xyabz"[(draw % 5) as usize]
}
