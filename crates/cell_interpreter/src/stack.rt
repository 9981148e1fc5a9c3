ghost use Rattle.std.specs.Prelude.{◌≡◌, ◌∷◌, ◌++◌, ◌+◌, ◌-◌, ◌<◌, ◌≤◌, [], length, take, IfOk, OnOk};
ghost use Rattle.arrayvec.specs.ArrayVec.{array_vec_len};
ghost use Rattle.calc_model.specs.Books.{entry_named};
ghost use Rattle.cell_interpreter.specs.Machine.{Acts, Calls, CanAct, Pops, TakesArgs};
ghost use Rattle.cell_interpreter.specs.Operands.{value_of};
ghost use Rattle.cell_interpreter.specs.Runs.{AreOfTree, IsEvaluated};
ghost use Rattle.formula_code.specs.Lent.{lent};

use crate::calls::call;
use crate::operand::Operand;
use crate::operators::{binary, hundredth, negated};
use crate::scalar::Scalar;
use arrayvec::ArrayVec;
use calc_addr::{Cell, NoMemory};
use calc_model::{Arg, NameTable, Text, Values};
use formula_code::{Token, Tokens};
use smallvec::SmallVec;
use std::alloc::Global;

/// So many parameters of a call need no allocation.
const FEW_PARAMETERS: usize = 4;

/// The operands of the parts of a formula that are done.
#[derive(Drop)]
pub(crate) struct Stack<'a, const SIZE: usize> {
    operands: ArrayVec<Operand<'a>, SIZE>,
}

impl<'a, const SIZE: usize> Stack<'a, SIZE> {
    /// An empty stack. It takes time in proportion to its size.
    pub(crate) fn new() -> Stack<'a, SIZE>
        ensures { result.operands.items ≡ [] }
    {
        Stack {
            operands: ArrayVec::new(),
        }
    }

    /// The value of a formula, from its tokens.
    pub(crate) fn evaluate<V: Values, N: NameTable>(
        &mut self,
        alloc: Global,
        tokens: Tokens<'a>,
        home: Cell,
        names: &N,
        values: &'a V,
    ) -> Result<Scalar<'a>, NoMemory>
        requires empty { self.old.operands.items ≡ [] }
        requires room { length tokens ≤ SIZE }
        requires formula { AreOfTree tokens }
        ensures { IfOk result (λ scalar. IsEvaluated home (entry_named (N.entries names.now))
            (V.values values.entry.now) tokens.entry (value_of scalar)) }
    {
        for token in tokens {
            self.act(alloc, token, home, names, values)?;
        }
        Ok(self.pop(home, values))
    }

    /// What a node makes of the stack.
    #[inline(always)]
    fn act<V: Values, N: NameTable>(
        &mut self,
        alloc: Global,
        token: Token<'a>,
        home: Cell,
        names: &N,
        values: &'a V,
    ) -> Result<(), NoMemory>
        requires room { array_vec_len self.old.operands < SIZE }
        requires there { CanAct home (entry_named (N.entries names.now)) (V.values values.now)
            (lent token) self.old.operands.items }
        ensures acted { OnOk result (Acts home (entry_named (N.entries names.now))
            (V.values values.entry.now) (lent token.entry)
            self.old.operands.items self.new.operands.items) }
        ensures grown { OnOk result
            (array_vec_len self.new.operands ≤ array_vec_len self.old.operands + 1) }
    {
        match token {
            Token::Number(number) => self.push(Scalar::Number(number)),
            Token::Words(text) => self.push(Scalar::Lent(text)),
            Token::Bad(fault) => self.push(Scalar::Bad(fault)),
            Token::Ref(reference) => self.operands.push(Operand::Area(reference.here(home))),
            Token::Name(name) => self.operands.push(Operand::of_name(name, names)),
            Token::Call { name, args } => self.call(alloc, name, args, home, values)?,
            Token::Paren => (),
            Token::Plus => {
                let operand = self.pop(home, values);
                self.push(operand)
            }
            Token::Minus => {
                let operand = self.pop(home, values);
                self.push(negated(&operand))
            }
            Token::Percent => {
                let operand = self.pop(home, values);
                self.push(hundredth(&operand))
            }
            Token::Binary(op) => {
                let right = self.pop(home, values);
                let left = self.pop(home, values);
                self.push(binary(alloc, op, &left, &right)?)
            }
        }
        Ok(())
    }

    #[inline(always)]
    fn push(&mut self, scalar: Scalar<'a>)
        requires { array_vec_len self.old.operands < SIZE }
        ensures items { self.new.operands.items
            ≡ self.old.operands.items ++ Operand.Scalar scalar.entry ∷ [] }
        ensures len { array_vec_len self.new.operands ≡ array_vec_len self.old.operands + 1 }
    {
        self.operands.push(Operand::Scalar(scalar))
    }

    /// Takes the top, in a place that takes one value.
    #[inline(always)]
    fn pop<V: Values>(&mut self, home: Cell, values: &'a V) -> Scalar<'a>
        requires { 0 < array_vec_len self.old.operands }
        ensures { Pops home (V.values values.entry.now)
            self.old.operands.items self.new.operands.items result }
    {
        match self.operands.pop() {
            Some(operand) => operand.into_scalar(home, values),
            None => unreachable!(),
        }
    }

    /// Puts what a call gives in the place of its parameters.
    fn call<V: Values>(
        &mut self,
        alloc: Global,
        name: &Text,
        count: u8,
        home: Cell,
        values: &'a V,
    ) -> Result<(), NoMemory>
        requires room { array_vec_len self.old.operands < SIZE }
        requires there { count ≤ array_vec_len self.old.operands }
        ensures called { OnOk result (Calls home (V.values values.entry.now) name.entry.now count
            self.old.operands.items self.new.operands.items) }
        ensures grown { OnOk result
            (array_vec_len self.new.operands ≤ array_vec_len self.old.operands + 1) }
    {
        let args = self.parameters(alloc, count)?;
        let value = call(alloc, name, args.as_slice(), home, values)?;
        self.push(Scalar::made(value));
        Ok(())
    }

    /// Takes so many parameters from the top, and gives them from left to right.
    fn parameters(
        &mut self,
        alloc: Global,
        count: u8,
    ) -> Result<SmallVec<Arg, FEW_PARAMETERS>, NoMemory>
        requires { count ≤ array_vec_len self.old.operands }
        ensures { IfOk result (λ args.
            TakesArgs count self.old.operands.items self.new.operands.items args.items) }
    {
        let mut args = SmallVec::new(alloc);
        for _ in 0..count {
            match self.operands.pop() {
                Some(operand) => args.push(operand.into_arg(alloc)?)?,
                None => unreachable!(),
            }
        }
        args.as_mut_slice().reverse();
        Ok(args)
    }
}
