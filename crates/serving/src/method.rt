//! The methods of a served node.

ghost use Rattle.std.specs.Prelude.{◌≡◌, ◌≢◌, None, IfSome};
ghost use Rattle.serving.specs.Requests.{method_name};
ghost use Rattle.serving.specs.declared.method.Method.{Method as AnyMethod};

/// A method, as a request names it.
#[derive(Clone, Copy)]
pub enum Method {
    Submit,
    Judge,
    Invalidate,
    Reconsider,
    Precious,
    GetTxOut,
    GetBestBlockHash,
    GetChainTips,
    GetBlock,
    GetBlockHeader,
    GetBlockHash,
    GetAncestor,
    GetFork,
    GetSpent,
    Coins,
    Wait,
    Note,
    Told,
    Journal,
    Wants,
    Learn,
    Info,
    Save,
    Finish,
}

impl Method {
    /// The method of this name.
    pub fn read(name: &str) -> Option<Method>
        ensures found { IfSome result (λ m. name.now ≡ method_name m) }
        ensures none { result ≡ None → (m : AnyMethod) → name.now ≢ method_name m }
    {
        Some(match name {
            "submit" => Method::Submit,
            "judge" => Method::Judge,
            "invalidate" => Method::Invalidate,
            "reconsider" => Method::Reconsider,
            "precious" => Method::Precious,
            "gettxout" => Method::GetTxOut,
            "getbestblockhash" => Method::GetBestBlockHash,
            "getchaintips" => Method::GetChainTips,
            "getblock" => Method::GetBlock,
            "getblockheader" => Method::GetBlockHeader,
            "getblockhash" => Method::GetBlockHash,
            "getancestor" => Method::GetAncestor,
            "getfork" => Method::GetFork,
            "getspent" => Method::GetSpent,
            "coins" => Method::Coins,
            "wait" => Method::Wait,
            "note" => Method::Note,
            "told" => Method::Told,
            "journal" => Method::Journal,
            "wants" => Method::Wants,
            "learn" => Method::Learn,
            "info" => Method::Info,
            "save" => Method::Save,
            "finish" => Method::Finish,
            _ => return None,
        })
    }
}
