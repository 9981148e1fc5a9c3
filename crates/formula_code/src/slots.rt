ghost use Rattle.std.specs.Prelude.{◌≡◌, [], ◌<◌, ◌^◌, None, Some, IfOk, OnErr, option_copied};
ghost use Rattle.formula_code.specs.Codes.{Changes, IsLive, IsSame, code_at, form_at, live_count, with_new_uses};

use crate::kept::Kept;
use calc_addr::NoMemory;
use std::alloc::Global;
use std::marker::Model;

/// Codes by their numbers. The number of a code that goes serves again.
#[derive(Drop)]
pub(crate) struct Slots {
    codes: Vec<Option<Kept>>,
    // the numbers without a code, with room for all
    free: Vec<u32>,
}

impl Model for Slots {
    ghost use Rattle.std.specs.Coded.{coded_list, coded_option};
    ghost use Rattle.std.specs.Prelude.{vec_capacity};
    ghost use Rattle.formula_code.specs.Codes.{Codes, code_of_code};

    ghost Value = { Codes };

    ghost coded = { coded_list (coded_option code_of_code) };

    ghost use Rattle.formula_code.specs.Slots.{AreSlots};

    ghost view = { λ s. s.codes.items };

    ghost invariant = { λ s. AreSlots s.codes.items s.free.items (vec_capacity s.free) };
}

impl Slots {
    pub(crate) fn new(alloc: Global) -> Slots
        ensures { result ≡ [] }
    {
        Slots {
            codes: Vec::new(alloc),
            free: Vec::new(alloc),
        }
    }

    /// The code with that number.
    pub(crate) fn get(&self, number: u32) -> Option<&Kept>
        ensures code { option_copied result ≡ code_at self.now number }
        ensures number { IsLive self.now number → number < 2 ^ 24 }
    {
        match self.codes.get(number as usize) {
            Some(Some(code)) => Some(code),
            _ => None,
        }
    }

    pub(crate) fn set_uses(&mut self, number: u32, uses: u32)
        requires { IsLive self.old number }
        ensures { Changes self.old self.new number
            (Some (record { form = form_at self.old number; uses = uses })) }
    {
        set_uses(&mut self.codes[number as usize], uses);
    }

    /// Puts a code under a number that has none. Where memory is refused, the code is dropped.
    pub(crate) fn insert(&mut self, code: Kept) -> Result<u32, NoMemory>
        requires { live_count self.old < 2 ^ 24 }
        ensures number { IfOk result (λ number. number < 2 ^ 24) }
        ensures vacant { IfOk result (λ number. code_at self.old number ≡ None) }
        ensures changes { IfOk result (λ number. Changes self.old self.new number (Some code)) }
        ensures err { OnErr result (IsSame self.old self.new) }
    {
        if let Some(number) = self.free.pop() {
            self.codes[number as usize] = Some(code);
            return Ok(number);
        }
        let number = self.codes.len();
        self.free.reserve(number + 1)?;
        self.codes.push(Some(code))?;
        Ok(number as u32)
    }

    /// Takes the code with that number away.
    pub(crate) fn remove(&mut self, number: u32)
        requires { IsLive self.old number }
        ensures { Changes self.old self.new number None }
    {
        self.codes[number as usize] = None;
        let _ = self.free.push(number);
    }
}

fn set_uses(slot: &mut Option<Kept>, uses: u32)
    ensures { slot.new ≡ with_new_uses uses slot.old }
{
    if let Some(code) = slot {
        code.set_uses(uses);
    }
}
