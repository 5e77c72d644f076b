// What has to be known of a command before it is planned.
ghost use Rattle.std.specs.Prelude.{◌≡◌};
ghost use Rattle.std.specs.Option.{option_copied};
ghost use Rattle.ccr_plans.specs.Scenes.{index_read, is_settle};

use ccr_op::IndexName;
use ccr_script::Command;

/// The index of whose shards a command has to know something before its first event, where there is one.
pub fn index_read(command: &Command) -> Option<&IndexName>
    ensures { option_copied result ≡ index_read command.now }
{
    match command {
        Command::Pause { index } => Some(index),
        Command::Resume { index } => Some(index),
        Command::Unfollow { index } => Some(index),
        Command::Search { index, .. } => Some(index),
        Command::Deliver { index, .. } => Some(index),
        Command::Apply { index, .. } => Some(index),
        _ => None,
    }
}

/// Whether the command settles all worlds: its plan has a deed that is in none of them.
pub fn is_settle(command: &Command) -> bool
    ensures { result ≡ is_settle command.now }
{
    matches!(command, Command::Settle)
}
