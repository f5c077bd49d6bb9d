//! The events of a session.

/// The event of a session line. Its words are slices of the line, and aren't looked up yet.
#[derive(Clone, Copy, Debug, PartialEq, Eq)]
pub enum Event<'a> {
    /// A line without words, or a comment. It gets no reply.
    Nothing,
    /// `do A`: the target requests the action.
    Ask(&'a [u8]),
    /// `use S`: the request is delegated to the service.
    Hand(&'a [u8]),
    /// `saw B E`: the delegate and the environment were observed in these states.
    Saw {
        /// The delegate's new state.
        state: &'a [u8],
        /// The environment's new state.
        env: &'a [u8],
    },
    /// `abort`: the target gives up the open request.
    Abort,
    /// `freeze S`: the service takes no more delegations for now.
    Freeze(&'a [u8]),
    /// `thaw S`: the frozen service takes delegations again.
    Thaw(&'a [u8]),
    /// `die S`: the service leaves the system.
    Die(&'a [u8]),
    /// `join S B STATE`, or `join S B STATE loose`: a service joins the system.
    Join {
        /// The new service's name.
        service: &'a [u8],
        /// The name of its behaviour.
        behaviour: &'a [u8],
        /// The state in which it joins.
        state: &'a [u8],
        /// Whether the service never needs to be in a final state.
        loose: bool,
    },
    /// `jump S STATE`: the service is in this state, even if no transition leads there.
    Jump {
        /// The service's name.
        service: &'a [u8],
        /// The service's new state.
        state: &'a [u8],
    },
    /// `jumpenv E`: the environment is in this state, even if no transition leads there.
    JumpEnv(&'a [u8]),
    /// `report`: requests the whole report.
    Report,
    /// `explain`: requests an explanation of why the current pair isn't related.
    Explain,
    /// `quit`: the session ends.
    Quit,
}
