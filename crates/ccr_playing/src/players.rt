//! Who does the commands of a script.
ghost use Rattle.std.specs.Prelude.{◌≡◌, ◌≢◌, ℕ, Bool, true, false, List, Option, None, Some, IfOk, IfErr, OnOk, OnErr, string_bytes};
ghost use Rattle.ccr_script.specs.declared.bad_lines.BadLine.{BadLine};

use ccr_script::BadLine;
use std::alloc::{AllocError, Global};

/// Reads the lines of a script as commands, does them one after another, and says what each is answered.
///
/// A run over a source and a sink is proved for any player: what commands there are, what they do and
/// what they are answered is the player's own.
pub trait Player {
    /// What a line may ask for.
    type Command: Drop;
    /// What is kept of all that was done, as plain data.
    type Journal;

    // The bytes of a line ask for this command, or for none.
    ghost asks: { List ℕ → Option Self.Command → Type 0 };

    // What is wrong with the bytes of a line.
    ghost fault: { List ℕ → Option BadLine };

    ghost journal: { Self → Self.Journal };

    // A command takes a journal to another, and is answered by this text.
    ghost does: { Self.Journal → Self.Command → Self.Journal → List ℕ → Type 0 };

    // None, a part or all of what a command stands for takes a journal to another.
    ghost begins: { Self.Journal → Self.Command → Self.Journal → Type 0 };

    // The player leaves the command to its caller.
    ghost is_left: { Self.Command → Bool };

    /// The command of a line, or `None` for a line that asks for nothing.
    fn read(alloc: Global, line: &[u8]) -> Result<Option<Self::Command>, BadLine>
        ensures ok { IfOk result (λ command. asks line.now command) }
        ensures no_fault { OnOk result (fault line.now ≡ None) }
        ensures err { IfErr result (λ why. why ≢ BadLine.Memory → fault line.now ≡ Some why) };

    /// Whether the command is left to the caller.
    fn is_left(command: &Self::Command) -> bool
        ensures { result ≡ is_left command.now };

    /// Does a command that isn't left, and gives the text of its answer. Where memory runs out it may
    /// have begun.
    fn perform(&mut self, command: Self::Command) -> Result<String, AllocError>
        requires { is_left command ≡ false }
        ensures done { IfOk result (λ text. does (journal self.old) command (journal self.new) (string_bytes text)) }
        ensures begun { OnErr result (begins (journal self.old) command (journal self.new)) };

    // Where a command was done, all was.
    ghost all_begun: { (before after : Self.Journal) (command : Self.Command) (text : List ℕ) → does before command after text → begins before command after };
}

/// A player that does also what it leaves, on one thread.
pub trait Whole: Player {
    /// Does a command that is left, and gives the text of its answer. Where memory runs out it may have
    /// begun.
    fn perform_left(&mut self, command: Self::Command) -> Result<String, AllocError>
        requires { Self.is_left command ≡ true }
        ensures done { IfOk result (λ text. Self.does (Self.journal self.old) command (Self.journal self.new) (string_bytes text)) }
        ensures begun { OnErr result (Self.begins (Self.journal self.old) command (Self.journal self.new)) };
}
