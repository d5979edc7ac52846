//! Plans.

ghost use Rattle.std.specs.Prelude.{◌≡◌, ℕ, ◌<◌, ◌≤◌, [], ◌∷◌, ◌++◌, length, slice_index_or, OnOk, OnErr};
ghost use Rattle.bm_forms.specs.PassForm.{IsOfShape};

use crate::pass_form::PassForm;
use bm_base::{OutOfMemory, Shape};
use std::alloc::Global;
use std::marker::Model;

/// A shape, and at most 256 passes of it in order.
#[derive(Drop)]
pub struct Plan {
    shape: Shape,
    forms: Vec<PassForm>,
}

impl Model for Plan {
    ghost use Rattle.bm_forms.specs.Plan.{PlanValue, ArePassesOf};

    ghost Value = { PlanValue };

    ghost view = { λ p. record { shape = p.shape; forms = p.forms.items } };

    ghost invariant = { λ p. ArePassesOf p.shape p.forms.items };
}

impl Plan {
    /// No passes yet; this takes no memory.
    pub fn empty(alloc: Global, shape: &Shape) -> Plan
        ensures shape { result.shape ≡ shape.now }
        ensures none { result.forms ≡ [] }
    {
        Plan {
            shape: *shape,
            forms: Vec::new(alloc),
        }
    }

    /// Puts a pass at the end. Where memory is refused the plan is as before.
    pub fn push(&mut self, pass: PassForm) -> Result<(), OutOfMemory>
        requires room { length self.old.forms < 256 }
        requires shape { IsOfShape self.old.shape pass }
        ensures shape { self.new.shape ≡ self.old.shape }
        ensures pushed { OnOk result (self.new.forms ≡ self.old.forms ++ pass ∷ []) }
        ensures kept { OnErr result (self.new ≡ self.old) }
    {
        self.forms.push(pass).map_err(|_| OutOfMemory)?;
        Ok(())
    }

    /// How many passes there are.
    pub fn len(&self) -> u16
        ensures count { result ≡ length self.now.forms }
        ensures few { result ≤ 256 }
    {
        self.forms.len() as u16
    }

    /// Pass i, counted from 0.
    pub fn at(&self, i: u16) -> &PassForm
        requires { i < length self.now.forms }
        ensures form { result.now ≡ slice_index_or self.now.forms i result.now }
        ensures shape { IsOfShape self.now.shape result.now }
    {
        &self.forms[usize::from(i)]
    }
}
