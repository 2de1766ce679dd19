//! Where files are read from.

ghost use Rattle.std.specs.Prelude.{ℕ, ◌≡◌, ◌≤◌, List, Option, IfOk, OnOk, OnErr};
ghost use Rattle.bk_port.specs.Causes.{HasCause};
ghost use Rattle.bk_port.specs.Reading.{Reads};

use bk_base::Text;
use thiserror::Error;

/// A call on a host or a sink failed.
#[derive(Clone, Copy, Debug, PartialEq, Eq, Error)]
#[error("a call on the outside failed")]
pub struct Failed;

/// A source of files by name, of which one at a time is started and then read from its front.
///
/// Contracts see what each name holds (`holds`) and what is `left` of the started file, where the
/// type tells them; the `count` of bytes read since the last start that answered Ok; whether a name
/// is started; and the `faults` of each name. No call changes what a name holds, and no call lowers
/// a count of faults.
pub trait Host {
    ghost holds: { Self → List ℕ → Option (List ℕ) };

    ghost left: { Self → Option (List ℕ) };

    ghost count: { Self → ℕ };

    ghost is_started: { Self → List ℕ → Type 0 };

    ghost faults: { Self → List ℕ → ℕ };

    /// Makes the named file the one that is read, from its front.
    ///
    /// It fails only where the faults of this name rose in this call, as where there is no such
    /// file, and then leaves the count and what is left as they were.
    fn start(&mut self, name: &Text) -> Result<(), Failed>
        ensures started { OnOk result (is_started self.new name.now) }
        ensures left { OnOk result (left self.new ≡ holds self.old name.now) }
        ensures count { OnOk result (count self.new ≡ 0) }
        ensures err_left { OnErr result (left self.new ≡ left self.old) }
        ensures err_count { OnErr result (count self.new ≡ count self.old) }
        ensures holds { (n : List ℕ) → holds self.new n ≡ holds self.old n }
        ensures later { (n : List ℕ) → faults self.old n ≤ faults self.new n }
        ensures cause { HasCause (faults self.old name.now) (faults self.new name.now) result };

    /// Puts the next bytes of the started file at the front of `buf`, and says how many they are.
    ///
    /// None into a buffer that is not empty is the file's end. It fails only where the faults of
    /// this name rose in this call, and then leaves the count and what is left as they were.
    fn read(&mut self, name: &Text, buf: &mut [u8]) -> Result<usize, Failed>
        requires { is_started self.old name.now }
        ensures started { OnOk result (is_started self.new name.now) }
        ensures read { IfOk result (Reads (left self.old) (left self.new) (count self.old) (count self.new) buf.new) }
        ensures err_left { OnErr result (left self.new ≡ left self.old) }
        ensures err_count { OnErr result (count self.new ≡ count self.old) }
        ensures holds { (n : List ℕ) → holds self.new n ≡ holds self.old n }
        ensures later { (n : List ℕ) → faults self.old n ≤ faults self.new n }
        ensures cause { HasCause (faults self.old name.now) (faults self.new name.now) result };
}
