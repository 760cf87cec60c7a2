// The kinds of record, by their byte in a file, and how long their bodies are.
ghost use Rattle.std.specs.Prelude.{◌≡◌};
ghost use Rattle.modelfile.specs.Records.{body_length};
ghost use Rattle.reader.specs.Kinds.{kind_number, KindAt};

#[derive(Clone, Copy, PartialEq, Eq)]
pub enum Kind {
    Size,
    Window,
    Load,
    Leaf,
    Join,
    End,
}

// A number that is no kind's byte.
#[derive(Clone, Copy, PartialEq, Eq)]
pub struct NoKind;

// The one place where a number becomes a kind, so a match on numbers.
impl TryFrom<usize> for Kind {
    type Error = NoKind;

    ghost try_from_gives = { KindAt };

    fn try_from(number: usize) -> Result<Self, NoKind> {
        match number {
            1 => Ok(Kind::Size),
            2 => Ok(Kind::Window),
            3 => Ok(Kind::Load),
            4 => Ok(Kind::Leaf),
            5 => Ok(Kind::Join),
            6 => Ok(Kind::End),
            _ => Err(NoKind),
        }
    }
}

impl Kind {
    #[tactic(auto, unfolding(modelfile::specs::Records::body_length))]
    pub fn body_length(self) -> usize
        ensures { result ≡ body_length (kind_number self) }
    {
        match self {
            Kind::Size | Kind::Window => 2,
            Kind::Load => 4,
            Kind::Leaf => 1,
            Kind::Join | Kind::End => 0,
        }
    }
}
