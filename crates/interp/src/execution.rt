//! One script, opcode by opcode.

ghost use Rattle.std.specs.Prelude.{◌≡◌, ◌<◌, ◌≤◌, ◌+◌, ℕ, List, length, option_and_then, IfOk, IfSome};
ghost use Rattle.script.specs.Op.{number_of};
ghost use Rattle.signatures.specs.Known.{Known};
ghost use Rattle.interp.specs.Answer.{answer_map};
ghost use Rattle.interp.specs.inside.Outcomes.{Goes, Leaves, GoesNamed, LeavesNamed};
ghost use Rattle.interp.specs.inside.Multisig.{counts_of};
ghost use Rattle.interp.specs.Running as model;
ghost use Rattle.interp.specs.inside.RunningContext.{running_of};
ghost use Rattle.interp.specs.inside.Outcomes.{Gives};
ghost use Rattle.interp.specs.State.{start, is_executing};
ghost use Rattle.interp.specs.Timelocks.{locks_until, locks_for};
ghost use Rattle.interp.specs.computed.OpcodeRow.{meaning, check_of};
ghost use Rattle.interp.specs.computed.Signatures.{may_be_dummy};
ghost use Rattle.interp.specs.Effects.{verify, on_main, to_alt, from_alt, branch, turn, close, ask};
ghost use Rattle.interp.specs.Rules.{skipped, with_count};
ghost use Rattle.interp.specs.computed.Step.{after_executing, after_multisig, after_test, dummy_of, after_acting, within_bounds, step_at, step, stack_left};
ghost use Rattle.interp.specs.computed.NamedFailures.{named, or_else, tested, executed, acted, step_named};
ghost use Rattle.interp.specs.Failures.{name_at, verify_name};
ghost use Rattle.interp.specs.Row.{push_row, row_at, row_of, Sig, Multisig, AndVerifies};

use crate::changes::{apply, compare, push, verify};
use crate::conditions::Conditions;
use crate::element::Element;
use crate::failures::{name_at, verify_name};
use crate::multisig::{answer, many};
use crate::no_verdict::Unverified;
use crate::numbers::{Binary, join_numbers};
use crate::op::{Op, Test, op_of};
use crate::pile::Pile;
use crate::running::Running;
use crate::script_error::ScriptError;
use crate::signature_check::judge;
use crate::timelocks::{meets_lock_time, meets_sequence};
use script::opcode::*;
use script::pushed;
use signatures::KnowsSignatures;
use std::alloc::Global;
use std::marker::Model;
use wire::Memory;

/// How many bytes a push has at most (Bitcoin Core's `MAX_SCRIPT_ELEMENT_SIZE`).
pub const MAX_PUSH: usize = 520;

/// How many opcodes above OP_16 a script has at most (Bitcoin Core's `MAX_OPS_PER_SCRIPT`).
pub const MAX_OPS: usize = 201;

/// How many elements both stacks have at most (Bitcoin Core's `MAX_STACK_SIZE`).
const MAX_ELEMENTS: i64 = 1000;

/// How many keys CHECKMULTISIG has at most (Bitcoin Core's `MAX_PUBKEYS_PER_MULTISIG`).
pub const MAX_KEYS: usize = 20;

/// What a script runs on.
#[derive(Drop)]
pub struct Execution<'a> {
    main: Pile<Element>,
    alt: Pile<Element>,
    /// For each open condition, the innermost on top, whether its branch is taken.
    conditions: Conditions,
    /// Opcodes above OP_16, and the keys of each CHECKMULTISIG.
    count: usize,
    /// The script from after its last executed CODESEPARATOR.
    code: &'a [u8],
}

impl<'a> Model for Execution<'a> {
    ghost use Rattle.interp.specs.State.{State};

    ghost Value = { State };

    ghost view = { λ m. record {
      main = m.main;
      alt = m.alt;
      conditions = m.conditions;
      count = m.count;
      code = m.code.now;
    } };
}

// A signature opcode: how many elements are taken, and the answer that is pushed in their place, without which the
// script fails.
macro_rules! row {
    ($alloc:ident, $execution:ident; $taken:expr => $answer:expr) => {{
        let Some(valid) = $answer else {
            return Ok(false);
        };
        $execution.main.drop_top($taken);
        $execution.main.push(Element::from_truth($alloc, valid)?)?;
        Ok(true)
    }};
}

impl<'a> Execution<'a> {
    /// Before the first opcode.
    pub fn new(alloc: Global, script: &'a [u8], main: Pile<Element>) -> Execution<'a>
        ensures { result ≡ start script.now main }
    {
        Execution {
            main,
            alt: Pile::new(alloc),
            conditions: Conditions::new(alloc),
            count: 0,
            code: script,
        }
    }

    /// Whether each open branch is taken.
    #[inline(always)]
    fn is_executing(&self) -> bool
        ensures { result ≡ is_executing self.now }
    {
        self.conditions.all_taken()
    }

    /// Takes the top, and says whether it is true.
    fn verify(&mut self) -> bool
        ensures { Gives result (on_main verify self.old) self.new }
    {
        verify(&mut self.main)
    }

    fn open(&mut self, at: bool) -> Result<bool, Memory>
        ensures { IfOk result (λ done. Gives done (branch at self.old) self.new) }
    {
        if self.main.len() == 0 {
            return Ok(false);
        }
        let is_true = self.main.pop().is_true();
        self.conditions.open(is_true == at)?;
        Ok(true)
    }

    fn turn(&mut self) -> Result<bool, Memory>
        ensures { IfOk result (λ done. Gives done (turn self.old) self.new) }
    {
        if self.conditions.len() == 0 {
            return Ok(false);
        }
        let taken = self.conditions.close();
        self.conditions.open(!taken)?;
        Ok(true)
    }

    fn close(&mut self) -> bool
        ensures { Gives result (close self.old) self.new }
    {
        if self.conditions.len() == 0 {
            return false;
        }
        let _ = self.conditions.close();
        true
    }

    /// Moves the top to the alternative stack.
    fn put_aside(&mut self) -> Result<bool, Memory>
        ensures { IfOk result (λ done. Gives done (to_alt self.old) self.new) }
    {
        if self.main.len() == 0 {
            return Ok(false);
        }
        let top = self.main.pop();
        self.alt.push(top)?;
        Ok(true)
    }

    /// Moves the top of the alternative stack back.
    fn take_back(&mut self) -> Result<bool, Memory>
        ensures { IfOk result (λ done. Gives done (from_alt self.old) self.new) }
    {
        if self.alt.len() == 0 {
            return Ok(false);
        }
        let top = self.alt.pop();
        self.main.push(top)?;
        Ok(true)
    }

    /// How many keys and signatures CHECKMULTISIG takes, if they are there and not too many.
    #[tactic(auto, unfolding(crate::specs::inside::Multisig::counts_of))]
    fn counts(&self) -> Option<(usize, usize)>
        ensures value { result ≡ counts_of self.now }
        ensures there { IfSome result (λ counts. counts.0 + counts.1 + 3 ≤ length self.now.main) }
        ensures few { IfSome result (λ counts. counts.0 ≤ 20) }
        ensures no_more { IfSome result (λ counts. counts.1 ≤ counts.0) }
        ensures counted { IfSome result (λ counts. self.now.count + counts.0 ≤ 201) }
    {
        let keys = many(&self.main, 0, MAX_KEYS)?;
        let signatures = many(&self.main, keys + 1, keys)?;
        if self.main.len() < keys + signatures + 3 {
            return None;
        }
        if self.count > MAX_OPS - keys {
            return None;
        }
        Some((keys, signatures))
    }

    /// CHECKSIG: takes a signature and a key above it, and pushes whether they are a valid pair.
    #[tactic(auto, unfolding(crate::specs::computed::Step::after_sig))]
    fn check_sig<K: KnowsSignatures>(
        &mut self,
        alloc: Global,
        running: &Running,
        known: &K,
    ) -> Result<bool, Unverified>
        requires { running.now.input < length running.now.tx.now.inputs }
        ensures { Goes result
            (after_test (K.known known.now) (running_of running.now) Sig self.old) self.new }
    {
        if self.main.len() < 2 {
            return Ok(false);
        }
        let key = self.main.at(0).as_slice();
        let signature = self.main.at(1).as_slice();
        row!(alloc, self; 2 => judge(alloc, running, known, self.code, signature, key)?)
    }

    /// CHECKMULTISIG: takes its keys, its signatures and one element more, and pushes its answer.
    #[tactic(auto, using(crate::proofs::MultisigStack::taking))]
    fn check_multisig<K: KnowsSignatures>(
        &mut self,
        alloc: Global,
        running: &Running,
        known: &K,
    ) -> Result<bool, Unverified>
        requires { running.now.input < length running.now.tx.now.inputs }
        ensures { Goes result
            (after_multisig (K.known known.now) (running_of running.now) self.old) self.new }
    {
        let Some(counts) = self.counts() else {
            return Ok(false);
        };
        self.count += counts.0;
        row!(alloc, self; counts.0 + counts.1 + 3 => answer(alloc, running, known, self.code, &self.main, counts)?)
    }

    /// Whether the element more that CHECKMULTISIG takes is empty, where it has to be (BIP 147).
    fn may_take_dummy(&self, running: &Running) -> bool
        ensures { result ≡ may_be_dummy running.now.flags (dummy_of self.now) }
    {
        if !running.flags.nulldummy {
            return true;
        }
        match self.counts() {
            Some((keys, signatures)) => {
                let dummy = self.main.at(keys + signatures + 2).as_slice();
                dummy.is_empty()
            }
            None => true,
        }
    }

    /// CHECKMULTISIG, which looks at the element more once its answer is there, whatever that is.
    #[tactic(auto, unfolding(crate::specs::computed::Step::after_dummy))]
    fn check_multisig_and_dummy<K: KnowsSignatures>(
        &mut self,
        alloc: Global,
        running: &Running,
        known: &K,
    ) -> Result<bool, Unverified>
        requires { running.now.input < length running.now.tx.now.inputs }
        ensures { Goes result
            (after_test (K.known known.now) (running_of running.now) Multisig self.old) self.new }
    {
        let may_take = self.may_take_dummy(running);
        Ok(self.check_multisig(alloc, running, known)? && may_take)
    }

    /// What leaves a truth or a number.
    fn test<K: KnowsSignatures>(
        &mut self,
        alloc: Global,
        running: &Running,
        known: &K,
        by: Test,
    ) -> Result<bool, Unverified>
        requires { running.now.input < length running.now.tx.now.inputs }
        ensures { Goes result
            (after_test (K.known known.now) (running_of running.now) (check_of by) self.old)
            self.new }
    {
        match by {
            Test::Equal => Ok(compare(alloc, &mut self.main)?),
            Test::NumEqual => Ok(join_numbers(alloc, &mut self.main, Binary::NumEqual)?),
            Test::CheckSig => self.check_sig(alloc, running, known),
            Test::CheckMultisig => self.check_multisig_and_dummy(alloc, running, known),
        }
    }

    fn test_verify<K: KnowsSignatures>(
        &mut self,
        alloc: Global,
        running: &Running,
        known: &K,
        by: Test,
    ) -> Result<bool, Unverified>
        requires { running.now.input < length running.now.tx.now.inputs }
        ensures { Goes result (answer_map (option_and_then (on_main verify))
            (after_test (K.known known.now) (running_of running.now) (check_of by) self.old))
            self.new }
    {
        if !self.test(alloc, running, known, by)? {
            return Ok(false);
        }
        Ok(self.verify())
    }

    /// Whether the top is there and a lock time that the transaction keeps (BIP 65).
    #[tactic(auto, unfolding(crate::specs::Effects::ask))]
    fn ask_lock_time(&self, running: &Running) -> bool
        requires { running.now.input < length running.now.tx.now.inputs }
        ensures { Gives result (ask
            (λ n. locks_until running.now.tx.now running.now.input n) self.now) self.now }
    {
        self.main.len() > 0 && meets_lock_time(running, self.main.at(0).as_slice())
    }

    /// Whether the top is there and a relative lock that the input keeps (BIP 112).
    #[tactic(auto, unfolding(crate::specs::Effects::ask))]
    fn ask_sequence(&self, running: &Running) -> bool
        requires { running.now.input < length running.now.tx.now.inputs }
        ensures { Gives result (ask
            (λ n. locks_for running.now.tx.now running.now.input n) self.now) self.now }
    {
        self.main.len() > 0 && meets_sequence(running, self.main.at(0).as_slice())
    }

    /// An opcode that is executed; `after` follows it in the script.
    fn execute<K: KnowsSignatures>(
        &mut self,
        alloc: Global,
        running: &Running,
        known: &K,
        after: &'a [u8],
        op: Op,
    ) -> Result<bool, Unverified>
        requires { running.now.input < length running.now.tx.now.inputs }
        ensures { Goes result (after_executing (K.known known.now) (running_of running.now)
            after.now (meaning op) self.old) self.new }
    {
        match op {
            Op::Disabled | Op::Fails => Ok(false),
            Op::Nothing => Ok(true),
            Op::Change(by) => Ok(apply(alloc, &mut self.main, by)?),
            Op::Test(by) => self.test(alloc, running, known, by),
            Op::TestVerify(by) => self.test_verify(alloc, running, known, by),
            Op::If => Ok(self.open(true)?),
            Op::NotIf => Ok(self.open(false)?),
            Op::Else => Ok(self.turn()?),
            Op::EndIf => Ok(self.close()),
            Op::ToAlt => Ok(self.put_aside()?),
            Op::FromAlt => Ok(self.take_back()?),
            Op::CodeSeparator => {
                self.code = after;
                Ok(true)
            }
            Op::LockTime => Ok(!running.flags.cltv || self.ask_lock_time(running)),
            Op::Sequence => Ok(!running.flags.csv || self.ask_sequence(running)),
        }
    }

    /// An opcode in a branch that isn't taken.
    #[tactic(auto, using(crate::proofs::Table::untaken), unfolding(crate::specs::Row::row_at))]
    #[inline(always)]
    fn skip(&mut self, number: u8) -> Result<bool, Memory>
        ensures { IfOk result (λ done. Gives done
            (skipped (row_at number) self.old) self.new) }
    {
        // Asked first, since it is so of most opcodes and the compiler would ask for the others before it.
        if number < OP_IF {
            return Ok(true);
        }
        match number {
            OP_IF | OP_NOTIF => {
                self.conditions.open(false)?;
                Ok(true)
            }
            OP_VERIF | OP_VERNOTIF => Ok(false),
            OP_ELSE => self.turn(),
            OP_ENDIF => Ok(self.close()),
            OP_CAT..=OP_RIGHT | OP_INVERT..=OP_XOR | OP_2MUL..=OP_2DIV | OP_MUL..=OP_RSHIFT => {
                Ok(false)
            }
            // What leaves it so, a gap between these at a time.
            OP_0..=OP_VER => Ok(true),
            OP_VERIFY..OP_CAT => Ok(true),
            OP_SIZE => Ok(true),
            OP_EQUAL..OP_2MUL => Ok(true),
            OP_NEGATE..OP_MUL => Ok(true),
            OP_BOOLAND..=OP_INVALIDOPCODE => Ok(true),
        }
    }

    /// An opcode that is no push of bytes. Where its branch isn't taken, its row isn't looked for.
    #[tactic(auto, unfolding(crate::specs::computed::Step::after_acting))]
    fn act<K: KnowsSignatures>(
        &mut self,
        alloc: Global,
        running: &Running,
        known: &K,
        after: &'a [u8],
        number: u8,
    ) -> Result<bool, Unverified>
        requires { running.now.input < length running.now.tx.now.inputs }
        ensures { Goes result (after_acting (K.known known.now) (running_of running.now)
            after.now (row_at number) self.old) self.new }
    {
        if self.is_executing() {
            self.execute(alloc, running, known, after, op_of(number))
        } else {
            Ok(self.skip(number)?)
        }
    }

    /// A push of bytes.
    #[tactic(auto, unfolding(crate::specs::computed::Step::after_acting, crate::specs::Row::push_row))]
    #[inline(always)]
    fn act_push(&mut self, alloc: Global, bytes: &[u8]) -> Result<bool, Memory>
        ensures { IfOk result (λ done. (known : Known) (r : model.Running) (after : List ℕ)
            → Leaves done (after_acting known r after (push_row bytes.now) self.old) self.new) }
    {
        if bytes.len() > MAX_PUSH {
            return Ok(false);
        }
        if self.is_executing() {
            return push(alloc, &mut self.main, bytes);
        }
        Ok(true)
    }

    /// One more opcode of this number, unless there were as many as there may be.
    #[tactic(auto, unfolding(crate::specs::Rules::with_count))]
    #[inline(always)]
    fn count_one(&mut self, number: u8) -> bool
        ensures { Gives result (with_count number self.old) self.new }
    {
        if number <= OP_16 {
            return true;
        }
        if self.count >= MAX_OPS {
            return false;
        }
        self.count += 1;
        true
    }

    /// Whether the stacks are small enough.
    #[tactic(auto, unfolding(crate::specs::computed::Step::within_bounds))]
    #[inline(always)]
    fn is_bounded(&self) -> bool
        ensures { Gives result (within_bounds self.now) self.now }
    {
        self.main.depth() <= MAX_ELEMENTS - self.alt.depth()
    }

    /// One opcode with its bytes; `after` follows it in the script.
    #[tactic(auto, unfolding(crate::specs::computed::Step::step, crate::specs::computed::Step::step_at, crate::specs::Rules::with_count, crate::specs::Row::row_of))]
    pub fn step<K: KnowsSignatures>(
        &mut self,
        alloc: Global,
        running: &Running,
        known: &K,
        after: &'a [u8],
        op: &[u8],
    ) -> Result<bool, Unverified>
        requires { running.now.input < length running.now.tx.now.inputs }
        ensures { Goes result
            (step (K.known known.now) (running_of running.now) after.now op.now self.old) self.new }
    {
        let Some(number) = op.first() else {
            return Ok(false);
        };
        let number = *number;
        if number <= OP_PUSHDATA4 {
            return Ok(self.act_push(alloc, pushed(op))? && self.is_bounded());
        }
        if !self.count_one(number) {
            return Ok(false);
        }
        Ok(self.act(alloc, running, known, after, number)? && self.is_bounded())
    }

    /// CHECKMULTISIG, and why it fails where it does.
    #[tactic(auto, unfolding(crate::specs::computed::Step::after_dummy))]
    fn multisig_or_name<K: KnowsSignatures>(
        &mut self,
        alloc: Global,
        running: &Running,
        known: &K,
        number: u8,
    ) -> Result<Option<ScriptError>, Unverified>
        requires { running.now.input < length running.now.tx.now.inputs }
        ensures { GoesNamed result (tested (K.known known.now) (running_of running.now)
            number Multisig self.old) self.new }
    {
        let name = name_at(number, &self.main, self.count);
        let may_take = self.may_take_dummy(running);
        if !self.check_multisig(alloc, running, known)? {
            return Ok(Some(name));
        }
        if !may_take {
            return Ok(Some(ScriptError::SigNullDummy));
        }
        Ok(None)
    }

    /// What leaves a truth or a number, and why it fails where it does.
    fn test_or_name<K: KnowsSignatures>(
        &mut self,
        alloc: Global,
        running: &Running,
        known: &K,
        by: Test,
        number: u8,
    ) -> Result<Option<ScriptError>, Unverified>
        requires { running.now.input < length running.now.tx.now.inputs }
        ensures { GoesNamed result (tested (K.known known.now) (running_of running.now)
            number (check_of by) self.old) self.new }
    {
        if let Test::CheckMultisig = by {
            return self.multisig_or_name(alloc, running, known, number);
        }
        let name = name_at(number, &self.main, self.count);
        if !self.test(alloc, running, known, by)? {
            return Ok(Some(name));
        }
        Ok(None)
    }

    /// What verifies is executed, else why it fails.
    fn verify_or_name<K: KnowsSignatures>(
        &mut self,
        alloc: Global,
        running: &Running,
        known: &K,
        by: Test,
        number: u8,
    ) -> Result<Option<ScriptError>, Unverified>
        requires { running.now.input < length running.now.tx.now.inputs }
        ensures { (after : List ℕ) → GoesNamed result (executed (K.known known.now)
            (running_of running.now) after number (AndVerifies (check_of by)) self.old) self.new }
    {
        if let Some(name) = self.test_or_name(alloc, running, known, by, number)? {
            return Ok(Some(name));
        }
        if !self.verify() {
            return Ok(Some(verify_name(number)));
        }
        Ok(None)
    }

    /// The same of each opcode that is executed.
    fn execute_or_name<K: KnowsSignatures>(
        &mut self,
        alloc: Global,
        running: &Running,
        known: &K,
        after: &'a [u8],
        number: u8,
    ) -> Result<Option<ScriptError>, Unverified>
        requires { running.now.input < length running.now.tx.now.inputs }
        ensures { GoesNamed result (executed (K.known known.now) (running_of running.now)
            after.now number (row_at number) self.old) self.new }
    {
        let op = op_of(number);
        if let Op::Test(by) = op {
            return self.test_or_name(alloc, running, known, by, number);
        }
        if let Op::TestVerify(by) = op {
            return self.verify_or_name(alloc, running, known, by, number);
        }
        let name = name_at(number, &self.main, self.count);
        if !self.execute(alloc, running, known, after, op)? {
            return Ok(Some(name));
        }
        Ok(None)
    }

    /// The same, whether its branch is taken or not.
    #[tactic(auto, unfolding(crate::specs::computed::NamedFailures::acted))]
    fn act_or_name<K: KnowsSignatures>(
        &mut self,
        alloc: Global,
        running: &Running,
        known: &K,
        after: &'a [u8],
        number: u8,
    ) -> Result<Option<ScriptError>, Unverified>
        requires { running.now.input < length running.now.tx.now.inputs }
        ensures { GoesNamed result (acted (K.known known.now) (running_of running.now)
            after.now number (row_at number) self.old) self.new }
    {
        if self.is_executing() {
            return self.execute_or_name(alloc, running, known, after, number);
        }
        let name = name_at(number, &self.main, self.count);
        if !self.skip(number)? {
            return Ok(Some(name));
        }
        Ok(None)
    }

    /// A push of bytes, by an opcode of this number, and why it fails where it does.
    fn push_or_name(
        &mut self,
        alloc: Global,
        number: u8,
        bytes: &[u8],
    ) -> Result<Option<ScriptError>, Memory>
        requires { number ≤ 0x4e }
        ensures { IfOk result (λ failure. (known : Known) (r : model.Running) (after : List ℕ)
            → LeavesNamed failure (acted known r after number (push_row bytes.now) self.old)
            self.new) }
    {
        if !self.act_push(alloc, bytes)? {
            return Ok(Some(ScriptError::PushSize));
        }
        Ok(None)
    }

    /// What an opcode's row does, once it is counted, and why that fails where it does.
    #[tactic(auto, unfolding(crate::specs::Row::row_of))]
    fn row_or_name<K: KnowsSignatures>(
        &mut self,
        alloc: Global,
        running: &Running,
        known: &K,
        after: &'a [u8],
        op: &[u8],
    ) -> Result<Option<ScriptError>, Unverified>
        requires input { running.now.input < length running.now.tx.now.inputs }
        requires some { 0 < length op.now }
        ensures { GoesNamed result (acted (K.known known.now) (running_of running.now)
            after.now (number_of op.now) (row_of op.now) self.old) self.new }
    {
        let number = op[0];
        if number <= OP_PUSHDATA4 {
            return Ok(self.push_or_name(alloc, number, pushed(op))?);
        }
        self.act_or_name(alloc, running, known, after, number)
    }

    /// One opcode with its bytes, and why it fails where it does; `after` follows it in the script.
    #[tactic(auto, unfolding(crate::specs::computed::NamedFailures::step_named))]
    pub fn step_or_name<K: KnowsSignatures>(
        &mut self,
        alloc: Global,
        running: &Running,
        known: &K,
        after: &'a [u8],
        op: &[u8],
    ) -> Result<Option<ScriptError>, Unverified>
        requires { running.now.input < length running.now.tx.now.inputs }
        ensures { GoesNamed result (step_named (K.known known.now) (running_of running.now)
            after.now op.now self.old) self.new }
    {
        if op.is_empty() {
            return Ok(Some(ScriptError::BadOpcode));
        }
        if !self.count_one(op[0]) {
            return Ok(Some(ScriptError::OpCount));
        }
        if let Some(name) = self.row_or_name(alloc, running, known, after, op)? {
            return Ok(Some(name));
        }
        if !self.is_bounded() {
            return Ok(Some(ScriptError::StackSize));
        }
        Ok(None)
    }

    /// The main stack, if no condition is open.
    pub fn finish(self) -> Option<Pile<Element>>
        ensures { result ≡ stack_left self.entry }
    {
        let Execution {
            main,
            alt: _,
            conditions,
            count: _,
            code: _,
        } = self;
        if conditions.len() == 0 {
            Some(main)
        } else {
            None
        }
    }
}
