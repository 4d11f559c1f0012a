//! What is answered, as members of an object.

ghost use Rattle.std.specs.Prelude.{◌≡◌, ◌++◌, ◌∷◌, [], codes};
ghost use Rattle.hash.specs.Id.{hex_of_id};
ghost use Rattle.json.specs.Token.{key, string, boolean};
ghost use Rattle.std.specs.List.{flat_map};
ghost use Rattle.hex.specs.Hex.{encode_lower};
ghost use Rattle.json.specs.Json.{no_members};
ghost use Rattle.serving.specs.Answers.{Adds, answer_members, coin_members, header_members, spent_list_members, spent_members, tip_members, output_members, step_members, info_members, members, now_of, status_name, wants_members, contradicted_members, height_if};
ghost use Rattle.serving.specs.inside.Front.{coin_tokens, line_tokens, spent_tokens, tip_tokens, step_tokens};

use crate::object::Object;
use crate::triple_line::triple_line;
use hash::Id;
use signatures::KeptTriple;
use std::alloc::{AllocError, Global};
use tree::{Status, Tip};

/// An answer, and its place in the history.
#[derive(Clone, Copy)]
pub struct Stamped<'a> {
    pub at: u64,
    pub answer: Answer<'a>,
}

/// What is answered beside the place.
#[derive(Clone, Copy)]
pub enum Answer<'a> {
    /// Nothing more.
    Place,
    /// The reply of a step.
    Reply(&'a str),
    Best(Id),
    Tips(&'a [Tip]),
    Output(Option<Output<'a>>),
    Steps(&'a [Step<'a>]),
    /// There is no such block.
    Absent,
    /// The bytes of a block.
    Block(&'a [u8]),
    Header(Header<'a>),
    Coins(&'a [CoinAt<'a>]),
    /// The coins that a block spent, in the order of its inputs.
    Spent(&'a [SpentCoin<'a>]),
    /// No step was taken: of these signatures isn't known whether they are valid.
    Wants(&'a [KeptTriple]),
    /// Of this signature the other verdict is known. Those told before it stand, and none behind it was told.
    Contradicted(&'a KeptTriple),
}

/// An output that isn't spent. Its value is in satoshis.
#[derive(Clone, Copy)]
pub struct Output<'a> {
    pub value: i64,
    pub script: &'a [u8],
    pub height: u32,
    pub coinbase: bool,
    pub confirmations: u32,
}

/// A block's header, its height, and how many blocks of the active branch there are from its own on: -1 where it isn't
/// on that branch.
#[derive(Clone, Copy)]
pub struct Header<'a> {
    pub bytes: &'a [u8],
    pub height: u64,
    pub confirmations: i64,
}

/// A coin, and its outpoint.
#[derive(Clone, Copy)]
pub struct CoinAt<'a> {
    pub txid: Id,
    pub n: u32,
    pub value: i64,
    pub script: &'a [u8],
    pub height: u32,
    pub coinbase: bool,
}

/// A coin that a block spent, whose outpoint is in the block.
#[derive(Clone, Copy)]
pub struct SpentCoin<'a> {
    pub value: i64,
    pub script: &'a [u8],
    pub height: u32,
    pub coinbase: bool,
}

/// A line of the journal.
#[derive(Clone, Copy)]
pub struct Step<'a> {
    /// Its place, from 1.
    pub number: u64,
    pub client: &'a str,
    pub command: &'a str,
    pub block: &'a str,
    /// In seconds since 1970, of a submission.
    pub moment: Option<u64>,
    pub reply: &'a str,
}

/// How a node was opened. The heights are of BIP 34, BIP 65, BIP 66, of BIPs 68, 112 and 113, and of BIP 147, if it has
/// one.
#[derive(Clone, Copy)]
pub struct Info<'a> {
    pub program: &'a str,
    pub version: &'a str,
    pub seats: u64,
    pub workers: u64,
    pub bip34: u32,
    pub bip65: u32,
    pub bip66: u32,
    pub csv: u32,
    pub nulldummy: Option<u32>,
    /// How many entries a folder had that was loaded.
    pub loaded: u64,
}

impl Object {
    /// What is answered beside the place.
    pub(crate) fn answer(&mut self, alloc: Global, answer: &Answer<'_>) -> Result<(), AllocError>
        ensures { Adds result self.old self.new (members (answer_members answer.now)) }
    {
        match answer {
            Answer::Place => Ok(()),
            Answer::Reply(word) => self.text("answer", word),
            Answer::Best(id) => {
                self.begin("answer")?;
                self.id(alloc, "hash", *id)?;
                self.end()
            }
            Answer::Tips(tips) => {
                self.begin_list("answer")?;
                self.tips(alloc, tips)?;
                self.end_list()
            }
            Answer::Output(None) => self.null("answer"),
            Answer::Output(Some(output)) => {
                self.begin("answer")?;
                self.output(alloc, output)?;
                self.end()
            }
            Answer::Steps(steps) => {
                self.begin_list("answer")?;
                self.steps(steps)?;
                self.end_list()
            }
            Answer::Absent => self.null("answer"),
            Answer::Block(bytes) => self.bytes(alloc, "answer", bytes),
            Answer::Header(header) => {
                self.begin("answer")?;
                self.header(alloc, header)?;
                self.end()
            }
            Answer::Coins(coins) => {
                self.begin_list("answer")?;
                self.coins(alloc, coins)?;
                self.end_list()
            }
            Answer::Spent(coins) => self.spent(alloc, coins),
            Answer::Wants(triples) => self.wants(alloc, triples),
            Answer::Contradicted(triple) => self.contradicted(alloc, triple),
        }
    }

    /// Tips, as Bitcoin Core's `getchaintips` gives them.
    fn tips(&mut self, alloc: Global, tips: &[Tip]) -> Result<(), AllocError>
        ensures { Adds result self.old self.new (flat_map tip_tokens tips.now) }
    {
        for tip in tips {
            self.whole_tip(alloc, tip)?;
        }
        Ok(())
    }

    fn whole_tip(&mut self, alloc: Global, tip: &Tip) -> Result<(), AllocError>
        ensures { Adds result self.old self.new (tip_tokens tip.now) }
    {
        self.item()?;
        self.id(alloc, "hash", tip.id)?;
        self.tip(tip)?;
        self.end()
    }

    fn steps(&mut self, steps: &[Step<'_>]) -> Result<(), AllocError>
        ensures { Adds result self.old self.new (flat_map step_tokens steps.now) }
    {
        for step in steps {
            self.whole_step(step)?;
        }
        Ok(())
    }

    fn whole_step(&mut self, step: &Step<'_>) -> Result<(), AllocError>
        ensures { Adds result self.old self.new (step_tokens step.now) }
    {
        self.item()?;
        self.step(step)?;
        self.end()
    }

    fn coins(&mut self, alloc: Global, coins: &[CoinAt<'_>]) -> Result<(), AllocError>
        ensures { Adds result self.old self.new (flat_map coin_tokens coins.now) }
    {
        for coin in coins {
            self.whole_coin(alloc, coin)?;
        }
        Ok(())
    }

    fn whole_coin(&mut self, alloc: Global, coin: &CoinAt<'_>) -> Result<(), AllocError>
        ensures { Adds result self.old self.new (coin_tokens coin.now) }
    {
        self.item()?;
        self.coin(alloc, coin)?;
        self.end()
    }

    /// The coins that a block spent.
    fn spent(&mut self, alloc: Global, coins: &[SpentCoin<'_>]) -> Result<(), AllocError>
        ensures { Adds result self.old self.new (members (spent_list_members coins.now)) }
    {
        self.begin_list("answer")?;
        self.spent_coins(alloc, coins)?;
        self.end_list()
    }

    fn spent_coins(&mut self, alloc: Global, coins: &[SpentCoin<'_>]) -> Result<(), AllocError>
        ensures { Adds result self.old self.new (flat_map spent_tokens coins.now) }
    {
        for coin in coins {
            self.whole_spent_coin(alloc, coin)?;
        }
        Ok(())
    }

    fn whole_spent_coin(&mut self, alloc: Global, coin: &SpentCoin<'_>) -> Result<(), AllocError>
        ensures { Adds result self.old self.new (spent_tokens coin.now) }
    {
        self.item()?;
        self.spent_coin(alloc, coin)?;
        self.end()
    }

    /// Signatures that aren't known.
    fn wants(&mut self, alloc: Global, triples: &[KeptTriple]) -> Result<(), AllocError>
        ensures { Adds result self.old self.new (members (wants_members triples.now)) }
    {
        self.begin("answer")?;
        self.begin_list("wants")?;
        self.triples(alloc, triples)?;
        self.end_list()?;
        self.end()
    }

    /// A signature of which the other verdict is known.
    fn contradicted(&mut self, alloc: Global, triple: &KeptTriple) -> Result<(), AllocError>
        ensures { Adds result self.old self.new (members (contradicted_members triple.now)) }
    {
        self.begin("answer")?;
        self.text("contradicted", triple_line(alloc, triple)?.as_str())?;
        self.end()
    }

    fn triples(&mut self, alloc: Global, triples: &[KeptTriple]) -> Result<(), AllocError>
        ensures { Adds result self.old self.new (flat_map line_tokens triples.now) }
    {
        for triple in triples {
            self.triple(alloc, triple)?;
        }
        Ok(())
    }

    fn triple(&mut self, alloc: Global, triple: &KeptTriple) -> Result<(), AllocError>
        ensures { Adds result self.old self.new (line_tokens triple.now) }
    {
        self.text_item(triple_line(alloc, triple)?.as_str())
    }

    /// The members of a coin with its outpoint.
    fn coin(&mut self, alloc: Global, coin: &CoinAt<'_>) -> Result<(), AllocError>
        ensures { Adds result self.old self.new (members (coin_members coin.now)) }
    {
        self.id(alloc, "txid", coin.txid)?;
        self.number("n", u64::from(coin.n))?;
        self.signed("value", coin.value)?;
        self.bytes(alloc, "script", coin.script)?;
        self.number("height", u64::from(coin.height))?;
        self.flag("coinbase", coin.coinbase)
    }

    /// The members of a coin that was spent.
    fn spent_coin(&mut self, alloc: Global, coin: &SpentCoin<'_>) -> Result<(), AllocError>
        ensures { Adds result self.old self.new (members (spent_members coin.now)) }
    {
        self.signed("value", coin.value)?;
        self.bytes(alloc, "script", coin.script)?;
        self.number("height", u64::from(coin.height))?;
        self.flag("coinbase", coin.coinbase)
    }

    /// The members of a header.
    fn header(&mut self, alloc: Global, header: &Header<'_>) -> Result<(), AllocError>
        ensures { Adds result self.old self.new (members (header_members header.now)) }
    {
        self.bytes(alloc, "header", header.bytes)?;
        self.number("height", header.height)?;
        self.signed("confirmations", header.confirmations)
    }

    /// An id, as it is printed.
    pub fn id(&mut self, alloc: Global, name: &str, id: Id) -> Result<(), AllocError>
        ensures { Adds result self.old self.new (key name.now ∷ string (hex_of_id id) ∷ []) }
    {
        let mut bytes = id.0;
        bytes.reverse();
        self.text(name, hex::encode(alloc, bytes)?.as_str())
    }

    /// The members of a tip behind its block.
    pub fn tip(&mut self, tip: &Tip) -> Result<(), AllocError>
        ensures { Adds result self.old self.new (members (tip_members tip.now)) }
    {
        self.number("height", tip.height as u64)?;
        self.number("branchlen", tip.length as u64)?;
        self.text("status", status_word(tip.status))
    }

    /// The members of an output.
    pub fn output(&mut self, alloc: Global, output: &Output<'_>) -> Result<(), AllocError>
        ensures { Adds result self.old self.new (members (output_members output.now)) }
    {
        self.signed("value", output.value)?;
        self.bytes(alloc, "script", output.script)?;
        self.number("height", u64::from(output.height))?;
        self.origin(output)?;
        self.number("confirmations", u64::from(output.confirmations))
    }

    /// The members of a line of the journal.
    pub fn step(&mut self, step: &Step<'_>) -> Result<(), AllocError>
        ensures { Adds result self.old self.new (members (step_members step.now)) }
    {
        self.number("step", step.number)?;
        self.text("client", step.client)?;
        self.text("command", step.command)?;
        self.text("block", step.block)?;
        self.moment(step.moment)?;
        self.text("reply", step.reply)
    }

    /// The moment of a submission.
    fn moment(&mut self, moment: Option<u64>) -> Result<(), AllocError>
        ensures { Adds result self.old self.new (members (now_of moment no_members)) }
    {
        match moment {
            Some(moment) => self.number("now", moment),
            None => Ok(()),
        }
    }

    /// Whether a coinbase made an output.
    fn origin(&mut self, output: &Output<'_>) -> Result<(), AllocError>
        ensures { Adds result self.old self.new
            (key (codes "coinbase") ∷ boolean output.now.coinbase ∷ []) }
    {
        if output.coinbase {
            self.flag("coinbase", true)
        } else {
            self.flag("coinbase", false)
        }
    }

    /// Bytes in hexadecimal digits.
    fn bytes(&mut self, alloc: Global, name: &str, bytes: &[u8]) -> Result<(), AllocError>
        ensures { Adds result self.old self.new
            (key name.now ∷ string (encode_lower bytes.now) ∷ []) }
    {
        self.text(name, hex::encode(alloc, bytes)?.as_str())
    }

    /// A soft fork's height, where it has one.
    fn height_if(&mut self, name: &str, height: Option<u32>) -> Result<(), AllocError>
        ensures { Adds result self.old self.new (members (height_if name.now height no_members)) }
    {
        match height {
            Some(height) => self.number(name, u64::from(height)),
            None => Ok(()),
        }
    }

    /// The members that say how a node was opened.
    pub(crate) fn info(&mut self, info: &Info<'_>) -> Result<(), AllocError>
        ensures { Adds result self.old self.new (members (info_members info.now)) }
    {
        self.text("program", info.program)?;
        self.text("version", info.version)?;
        self.number("seats", info.seats)?;
        self.number("workers", info.workers)?;
        self.begin("heights")?;
        self.number("bip34", u64::from(info.bip34))?;
        self.number("bip65", u64::from(info.bip65))?;
        self.number("bip66", u64::from(info.bip66))?;
        self.number("csv", u64::from(info.csv))?;
        self.height_if("nulldummy", info.nulldummy)?;
        self.end()?;
        self.number("loaded", info.loaded)
    }
}

/// Bitcoin Core's words (`getchaintips`).
pub fn status_word(status: Status) -> &'static str
    ensures { result.now ≡ status_name status }
{
    match status {
        Status::Active => "active",
        Status::Invalid => "invalid",
        Status::ValidFork => "valid-fork",
        Status::ValidHeaders => "valid-headers",
    }
}
