//! Why a request isn't answered by a result.

ghost use Rattle.std.specs.Prelude.{◌≡◌, pos, neg_ℤ};
ghost use Rattle.serving.specs.Answers.{code_of, name_of};

/// Why a request isn't answered by a result.
#[derive(Clone, Copy)]
pub enum Refusal {
    /// The line isn't JSON.
    Parse,
    /// The line is longer than a line may be.
    TooLong,
    /// The line has more values than a line may have.
    TooMany,
    /// The line is JSON, and no request.
    Request,
    /// No method has this name.
    Method,
    /// The parameter of this name isn't there, or isn't what the method takes.
    Param(&'static str),
    /// There was no memory. No step was taken.
    Memory,
    /// The step was taken, and can't be shown yet.
    Owed,
    /// The seat has no history to read or write. No step was taken.
    Closed,
    /// What happened couldn't be saved: the program's last line on the standard error says why.
    Unsaved,
    /// What happened so far couldn't be saved, for this reason. A later request may save it.
    NotSaved(&'static str),
    /// As many requests wait for the seat as may. No step was taken.
    Busy,
    /// The submission would be refused, and the history has no more room for such. No step was taken.
    HistoryFull,
}

impl Refusal {
    /// Its code: those below -32600 are JSON-RPC's, those from -32001 on the node's.
    pub fn code(self) -> i64
        ensures { result ≡ neg_ℤ (pos (code_of self)) }
    {
        match self {
            Refusal::Parse => -32700,
            Refusal::TooLong | Refusal::TooMany | Refusal::Request => -32600,
            Refusal::Method => -32601,
            Refusal::Param(_) => -32602,
            Refusal::Memory => -32001,
            Refusal::Owed => -32002,
            Refusal::Closed => -32003,
            Refusal::Unsaved | Refusal::NotSaved(_) => -32004,
            Refusal::Busy => -32005,
            Refusal::HistoryFull => -32006,
        }
    }

    /// Its name.
    pub fn message(self) -> &'static str
        ensures { result.now ≡ name_of self }
    {
        match self {
            Refusal::Parse => "parse error",
            Refusal::TooLong | Refusal::TooMany | Refusal::Request => "invalid request",
            Refusal::Method => "method not found",
            Refusal::Param(_) => "invalid params",
            Refusal::Memory => "memory",
            Refusal::Owed => "owed",
            Refusal::Closed => "closed",
            Refusal::Unsaved | Refusal::NotSaved(_) => "not saved",
            Refusal::Busy => "busy",
            Refusal::HistoryFull => "history-full",
        }
    }
}
