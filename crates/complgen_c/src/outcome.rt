//! The outcome of a call, and how an exported function returns it.

ghost use Rattle.std.specs.Prelude.{◌≡◌};
ghost use Rattle.complgen_c.specs.Outcomes.{Copies, Returns, status_of, text_of};

use cc_base::{Items, Text};
use complgen_scripts::Refusal;

/// The outcome of a call. Each has a status and a text, which an exported function returns.
#[derive(Drop)]
pub enum Outcome {
    /// 0: the text is made.
    Made(Items<u8>),
    /// 1: there is no result. The text is a message, which ends in a line feed.
    Failed(Refusal),
    /// 2: a text that the caller passed is not UTF-8.
    NotUtf8,
    /// 3: nothing is requested.
    NotRequested,
    /// 4: the call needs the names in the directory with this path. The text is the path.
    WantsFolder(Text),
    /// 5: the shell is to run a command. The text is its words, each with a vertical tab after it.
    Run(Items<u8>),
    /// 6: the text is made, a reply after whose values no space follows.
    MadeWithoutSpace(Items<u8>),
}

impl Outcome {
    /// Sets `status`, copies the text to the start of `room` if it fits there, and returns its
    /// length. A `room` that is too small stays unchanged.
    pub fn put(&self, room: &mut [u8], status: &mut u8) -> usize
        ensures { Returns self.now room.old room.new status.new result }
    {
        *status = self.status();
        copy_into(self.text(), room)
    }

    fn status(&self) -> u8
        ensures { result ≡ status_of self.now }
    {
        match self {
            Outcome::Made(_) => 0,
            Outcome::Failed(_) => 1,
            Outcome::NotUtf8 => 2,
            Outcome::NotRequested => 3,
            Outcome::WantsFolder(_) => 4,
            Outcome::Run(_) => 5,
            Outcome::MadeWithoutSpace(_) => 6,
        }
    }

    fn text(&self) -> &[u8]
        ensures { result.now ≡ text_of self.now }
    {
        match self {
            Outcome::Made(text) | Outcome::Run(text) => text.as_slice(),
            Outcome::MadeWithoutSpace(text) => text.as_slice(),
            Outcome::Failed(refusal) => refusal.text.as_str().as_bytes(),
            Outcome::NotUtf8 | Outcome::NotRequested => b"",
            Outcome::WantsFolder(path) => path.as_str().as_bytes(),
        }
    }
}

// Copies the text to the start of the room if it fits there, and returns its length.
fn copy_into(text: &[u8], room: &mut [u8]) -> usize
    ensures { Copies text.now room.old room.new result }
{
    if text.len() <= room.len() {
        room[..text.len()].copy_from_slice(text);
    }
    text.len()
}
