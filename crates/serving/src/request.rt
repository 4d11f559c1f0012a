//! What a line asks.

ghost use Rattle.std.specs.Prelude.{◌≡◌, ℕ, ◌<◌, ◌^◌, List, None, codes, option_map, IfOk, IfErr, IfSome};
ghost use Rattle.json.specs.Value.{value_view};
ghost use Rattle.serving.specs.Requests.{IsRead, IsReadOf, IsAsked, IsInTurn, IsCall, IsRequest, AreNamed};
ghost use Rattle.serving.specs.inside.Given.{given, IsNoCall};
ghost use Rattle.json.specs.Find.{get};
ghost use Rattle.serving.specs.declared.method.Method.TheVariants as methods;

use crate::method::Method;
use crate::params::Params;
use crate::refusal::Refusal;
use crate::request_id::RequestId;
use hash::Id;
use json::{Scratch, Value};
use std::alloc::{AllocError, Global};
use txn::OutPoint;

/// A line, as it is read: the id that its answer has, and what it asks.
#[derive(Drop)]
pub struct Request {
    pub id: RequestId,
    pub asked: Asked,
}

/// What a line asks.
#[derive(Drop)]
pub enum Asked {
    /// To have the seat of this number answer a call.
    Seat(usize, Call),
    /// How the node was opened.
    Info,
    /// To save what happened so far.
    Save,
    /// To end.
    Finish,
    /// Nothing that can be answered. Where it names a seat of the node, it is told in that seat's turn.
    Refused(Option<usize>, Refusal),
}

/// What a seat is asked.
#[derive(Drop)]
pub enum Call {
    /// To take the block of these bytes, at this moment in seconds since 1970.
    Submit(Vec<u8>, u64),
    /// What its reply would be.
    Judge(Vec<u8>, u64),
    Invalidate(Id),
    Reconsider(Id),
    Precious(Id),
    Output(OutPoint),
    Best,
    Tips,
    /// The bytes of a block.
    Block(Id),
    /// The header of a block, and where it stands.
    Header(Id),
    /// The block of the active branch at this height.
    Hash(u64),
    /// The block at this height of the branch of a block.
    Ancestor(Id, u64),
    /// The last block that the branches of two blocks share.
    Fork(Id, Id),
    /// The coins that a block of the active branch spent.
    Spent(Id),
    /// The coins at the outpoints above one, or from the least on, at most so many.
    Coins(Option<OutPoint>, u64),
    /// To answer once the history has more steps than these.
    Wait(u64),
    /// How many entries the seat has seen.
    Note,
    /// To hear what the seat of this number has seen.
    Told(usize),
    /// The entries between these numbers, both included, from 1.
    Journal(u64, u64),
    /// The signatures that the seat's last refused call wants.
    Wants,
    /// To take down which signatures are valid, by the lines of a table, and which aren't.
    Learn(Vec<u8>, Vec<u8>),
}

/// What a line asks of a node with so many seats.
pub fn read_request(alloc: Global, line: &[u8], seats: usize) -> Result<Request, AllocError>
    ensures { IfOk result (λ request. IsRead seats line.now request) }
{
    let mut scratch = Scratch::new(alloc);
    match Value::from_slice(alloc, line, &mut scratch) {
        Ok(value) => request_of(alloc, &value, seats),
        Err(json::Error::OutOfMemory) => Err(AllocError),
        Err(_) => Ok(Request {
            id: RequestId::Null,
            asked: Asked::Refused(None, Refusal::Parse),
        }),
    }
}

/// What a value asks.
fn request_of(alloc: Global, value: &Value<'_>, seats: usize) -> Result<Request, AllocError>
    ensures { IfOk result (λ request. IsReadOf seats (value_view value.now) request) }
{
    let id = match value.get("id") {
        Some(id) => RequestId::of(alloc, id)?,
        None => None,
    };
    match id {
        Some(id) => Ok(Request {
            id,
            asked: asked_of(alloc, value, seats)?,
        }),
        None => Ok(Request {
            id: RequestId::Null,
            asked: Asked::Refused(None, Refusal::Request),
        }),
    }
}

/// What a value asks that has an id.
fn asked_of(alloc: Global, value: &Value<'_>, seats: usize) -> Result<Asked, AllocError>
    ensures asked { IfOk result (λ asked. IsAsked seats (value_view value.now) asked) }
    ensures turn { IfOk result (λ asked. IsInTurn seats (value_view value.now) asked) }
{
    let params = value.get("params");
    let Some(name) = method_of(value, params) else {
        return Ok(Asked::Refused(None, Refusal::Request));
    };
    let params = Params(params);
    let seat = params.seat("seat", seats);
    let Some(method) = Method::read(name) else {
        return Ok(Asked::Refused(seat.ok(), Refusal::Method));
    };
    match method {
        Method::Info => Ok(Asked::Info),
        Method::Save => Ok(Asked::Save),
        Method::Finish => Ok(Asked::Finish),
        _ => match seat {
            Ok(seat) => match call_of(alloc, method, &params, seats) {
                Ok(call) => Ok(Asked::Seat(seat, call)),
                Err(Refusal::Memory) => Err(AllocError),
                Err(refusal) => Ok(Asked::Refused(Some(seat), refusal)),
            },
            Err(refusal) => Ok(Asked::Refused(None, refusal)),
        },
    }
}

/// The method of a request with these parameters. None where it is no request.
fn method_of<'l>(value: &Value<'l>, params: Option<&Value<'l>>) -> Option<&'l str>
    requires { option_map (λ v. value_view v.now) params
        ≡ get (codes "params") (value_view value.now) }
    ensures some { IfSome result (λ name. IsRequest (value_view value.now) name.now) }
    ensures none { result ≡ None → (name : List ℕ) → ¬ IsRequest (value_view value.now) name }
{
    if !matches!(params, None | Some(Value::Object(_))) {
        return None;
    }
    if value.get("jsonrpc")?.as_str()? != "2.0" {
        return None;
    }
    value.get("method")?.as_str()
}

/// What a method asks of a seat by these parameters.
fn call_of(
    alloc: Global,
    method: Method,
    params: &Params<'_, '_>,
    seats: usize,
) -> Result<Call, Refusal>
    ensures ok { IfOk result (λ call. IsCall seats method (given params.now) call) }
    ensures err { IfErr result (λ why. IsNoCall seats method (given params.now) why) }
{
    match method {
        Method::Submit => submission(alloc, params),
        Method::Judge => dry_run(alloc, params),
        Method::Invalidate => match params.id("id") {
            Ok(id) => Ok(Call::Invalidate(id)),
            Err(refusal) => Err(refusal),
        },
        Method::Reconsider => match params.id("id") {
            Ok(id) => Ok(Call::Reconsider(id)),
            Err(refusal) => Err(refusal),
        },
        Method::Precious => match params.id("id") {
            Ok(id) => Ok(Call::Precious(id)),
            Err(refusal) => Err(refusal),
        },
        Method::GetTxOut => output(params),
        Method::GetBestBlockHash => Ok(Call::Best),
        Method::GetChainTips => Ok(Call::Tips),
        Method::GetBlock => block(params),
        Method::GetBlockHeader => header(params),
        Method::GetBlockHash => hash(params),
        Method::GetAncestor => ancestor(params),
        Method::GetFork => fork(params),
        Method::GetSpent => spent(params),
        Method::Coins => coins(params),
        Method::Wait => wait(params),
        Method::Note => Ok(Call::Note),
        Method::Told => told(params, seats),
        Method::Journal => entries(params),
        Method::Wants => Ok(Call::Wants),
        Method::Learn => verdicts(alloc, params),
        Method::Info | Method::Save | Method::Finish => Err(Refusal::Param("seat")),
    }
}

fn submission(alloc: Global, params: &Params<'_, '_>) -> Result<Call, Refusal>
    ensures ok { (seats : ℕ) → IfOk result (λ call.
        IsCall seats methods.Submit (given params.now) call) }
    ensures err { (seats : ℕ) → IfErr result (λ why.
        IsNoCall seats methods.Submit (given params.now) why) }
{
    match params.bytes(alloc, "block") {
        Ok(block) => match params.number("now") {
            Ok(now) => Ok(Call::Submit(block, now)),
            Err(refusal) => Err(refusal),
        },
        Err(refusal) => Err(refusal),
    }
}

fn dry_run(alloc: Global, params: &Params<'_, '_>) -> Result<Call, Refusal>
    ensures ok { (seats : ℕ) → IfOk result (λ call.
        IsCall seats methods.Judge (given params.now) call) }
    ensures err { (seats : ℕ) → IfErr result (λ why.
        IsNoCall seats methods.Judge (given params.now) why) }
{
    match (params.bytes(alloc, "block"), params.number("now")) {
        (Ok(block), Ok(now)) => Ok(Call::Judge(block, now)),
        (Err(refusal), _) => Err(refusal),
        (_, Err(refusal)) => Err(refusal),
    }
}

fn output(params: &Params<'_, '_>) -> Result<Call, Refusal>
    ensures ok { (seats : ℕ) → IfOk result (λ call.
        IsCall seats methods.GetTxOut (given params.now) call) }
    ensures err { (seats : ℕ) → IfErr result (λ why.
        IsNoCall seats methods.GetTxOut (given params.now) why) }
{
    match params.outpoint() {
        Ok(outpoint) => Ok(Call::Output(outpoint)),
        Err(refusal) => Err(refusal),
    }
}

fn block(params: &Params<'_, '_>) -> Result<Call, Refusal>
    ensures ok { (seats : ℕ) → IfOk result (λ call.
        IsCall seats methods.GetBlock (given params.now) call) }
    ensures err { (seats : ℕ) → IfErr result (λ why.
        IsNoCall seats methods.GetBlock (given params.now) why) }
{
    match params.id("id") {
        Ok(id) => Ok(Call::Block(id)),
        Err(refusal) => Err(refusal),
    }
}

fn header(params: &Params<'_, '_>) -> Result<Call, Refusal>
    ensures ok { (seats : ℕ) → IfOk result (λ call.
        IsCall seats methods.GetBlockHeader (given params.now) call) }
    ensures err { (seats : ℕ) → IfErr result (λ why.
        IsNoCall seats methods.GetBlockHeader (given params.now) why) }
{
    match params.id("id") {
        Ok(id) => Ok(Call::Header(id)),
        Err(refusal) => Err(refusal),
    }
}

fn hash(params: &Params<'_, '_>) -> Result<Call, Refusal>
    ensures ok { (seats : ℕ) → IfOk result (λ call.
        IsCall seats methods.GetBlockHash (given params.now) call) }
    ensures err { (seats : ℕ) → IfErr result (λ why.
        IsNoCall seats methods.GetBlockHash (given params.now) why) }
{
    match params.number("height") {
        Ok(height) => Ok(Call::Hash(height)),
        Err(refusal) => Err(refusal),
    }
}

fn ancestor(params: &Params<'_, '_>) -> Result<Call, Refusal>
    ensures ok { (seats : ℕ) → IfOk result (λ call.
        IsCall seats methods.GetAncestor (given params.now) call) }
    ensures err { (seats : ℕ) → IfErr result (λ why.
        IsNoCall seats methods.GetAncestor (given params.now) why) }
{
    match (params.id("id"), params.number("height")) {
        (Ok(id), Ok(height)) => Ok(Call::Ancestor(id, height)),
        (Err(refusal), _) => Err(refusal),
        (_, Err(refusal)) => Err(refusal),
    }
}

fn fork(params: &Params<'_, '_>) -> Result<Call, Refusal>
    ensures ok { (seats : ℕ) → IfOk result (λ call.
        IsCall seats methods.GetFork (given params.now) call) }
    ensures err { (seats : ℕ) → IfErr result (λ why.
        IsNoCall seats methods.GetFork (given params.now) why) }
{
    match (params.id("id"), params.id("other")) {
        (Ok(id), Ok(other)) => Ok(Call::Fork(id, other)),
        (Err(refusal), _) => Err(refusal),
        (_, Err(refusal)) => Err(refusal),
    }
}

fn spent(params: &Params<'_, '_>) -> Result<Call, Refusal>
    ensures ok { (seats : ℕ) → IfOk result (λ call.
        IsCall seats methods.GetSpent (given params.now) call) }
    ensures err { (seats : ℕ) → IfErr result (λ why.
        IsNoCall seats methods.GetSpent (given params.now) why) }
{
    match params.id("id") {
        Ok(id) => Ok(Call::Spent(id)),
        Err(refusal) => Err(refusal),
    }
}

fn coins(params: &Params<'_, '_>) -> Result<Call, Refusal>
    ensures ok { (seats : ℕ) → IfOk result (λ call.
        IsCall seats methods.Coins (given params.now) call) }
    ensures err { (seats : ℕ) → IfErr result (λ why.
        IsNoCall seats methods.Coins (given params.now) why) }
{
    match (params.above(), params.number("most")) {
        (Ok(above), Ok(most)) => Ok(Call::Coins(above, most)),
        (Err(refusal), _) => Err(refusal),
        (_, Err(refusal)) => Err(refusal),
    }
}

fn wait(params: &Params<'_, '_>) -> Result<Call, Refusal>
    ensures ok { (seats : ℕ) → IfOk result (λ call.
        IsCall seats methods.Wait (given params.now) call) }
    ensures err { (seats : ℕ) → IfErr result (λ why.
        IsNoCall seats methods.Wait (given params.now) why) }
{
    match params.number("after") {
        Ok(steps) => Ok(Call::Wait(steps)),
        Err(refusal) => Err(refusal),
    }
}

fn told(params: &Params<'_, '_>, seats: usize) -> Result<Call, Refusal>
    ensures ok { IfOk result (λ call. IsCall seats methods.Told (given params.now) call) }
    ensures err { IfErr result (λ why. IsNoCall seats methods.Told (given params.now) why) }
{
    match params.seat("from", seats) {
        Ok(from) => Ok(Call::Told(from)),
        Err(refusal) => Err(refusal),
    }
}

fn entries(params: &Params<'_, '_>) -> Result<Call, Refusal>
    ensures ok { (seats : ℕ) → IfOk result (λ call.
        IsCall seats methods.Journal (given params.now) call) }
    ensures err { (seats : ℕ) → IfErr result (λ why.
        IsNoCall seats methods.Journal (given params.now) why) }
{
    match (params.number("from"), params.number("to")) {
        (Ok(0), _) => Err(Refusal::Param("from")),
        (Ok(from), Ok(to)) => Ok(Call::Journal(from, to)),
        (Err(refusal), _) => Err(refusal),
        (_, Err(refusal)) => Err(refusal),
    }
}

fn verdicts(alloc: Global, params: &Params<'_, '_>) -> Result<Call, Refusal>
    ensures ok { (seats : ℕ) → IfOk result (λ call.
        IsCall seats methods.Learn (given params.now) call) }
    ensures err { (seats : ℕ) → IfErr result (λ why.
        IsNoCall seats methods.Learn (given params.now) why) }
{
    match params.lines(alloc, "valid") {
        Ok(valid) => match params.lines(alloc, "invalid") {
            Ok(invalid) => Ok(Call::Learn(valid, invalid)),
            Err(refusal) => Err(refusal),
        },
        Err(refusal) => Err(refusal),
    }
}
