//! What a served node is asked by a line of JSON, and the lines that it answers: JSON-RPC 2.0.
#![tactic(auto)]

mod answer;
mod line;
mod method;
mod numeral;
mod object;
mod params;
mod refusal;
mod request;
mod request_id;
mod triple_line;

pub use answer::{Answer, CoinAt, Header, Info, Output, SpentCoin, Stamped, Step, status_word};
pub use line::{answer_line, info_line, refusal_line};
pub use method::Method;
pub use numeral::Numeral;
pub use object::Object;
pub use refusal::Refusal;
pub use request::{Asked, Call, Request, read_request};
pub use request_id::RequestId;
