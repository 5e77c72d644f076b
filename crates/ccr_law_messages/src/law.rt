ghost use Rattle.ccr_law_messages.specs.FrameLaws.{FramesStart, FramesKeep, FramesSay};

/// At the start there are no messages, no polls, no kept requests and no sessions.
pub fn frames_start()
    ensures { FramesStart }
{}

/// Each event keeps what holds of the messages, the polls, the kept requests, the sessions and the followers'
/// works, where the leader's copies have the line and their stores serve for it, the session that would be opened
/// now serves for the line up to its count, and the parameters of a new follower are in their ranges.
pub fn frames_keep()
    ensures { FramesKeep }
{}

/// That implies what is stated of the messages in flight; besides, each message is of a follower that was made and
/// about its own lease, each reply to a read brings consecutive numbers, and each session serves for the line up
/// to its count.
pub fn frames_say()
    ensures { FramesSay }
{}
