//! Values by their names.
ghost use Rattle.std.specs.Prelude.{◌≡◌, ℕ, List, Option, IsTrue, OnOk, IfSome, None, Some, option_copied};
ghost use Rattle.std.specs.Map.{update};
ghost use Rattle.std.specs.Str.{bytes_eq};
ghost use Rattle.workspace.specs.Names.{value_at};
ghost use Rattle.workspace.specs.inner.Names.{is_declared};

use std::alloc::{AllocError, Global};
use std::collections::BTreeMap;

/// Values by their names. A name can be declared before its value is there, so that to bind it
/// takes no memory.
#[derive(Drop)]
pub struct Names<V: Drop> {
    pub declared: BTreeMap<String, Option<V>>,
    pub alloc: Global,
}

impl<V: Drop> Names<V> {
    /// No names.
    pub fn new(alloc: Global) -> Self
        ensures { (name : List ℕ) → value_at result.declared name ≡ None }
    {
        Names {
            declared: BTreeMap::new(alloc),
            alloc,
        }
    }

    /// The value that stands under a name.
    pub fn find(&self, name: &str) -> Option<&V>
        ensures { option_copied result ≡ value_at self.now.declared name.now }
    {
        match self.declared.get(name) {
            Some(Some(value)) => Some(value),
            _ => None,
        }
    }

    /// Declares a name, where it is not declared yet. What the names stand for is as before.
    ///
    /// # Errors
    ///
    /// There is no memory for it.
    pub fn declare(&mut self, name: &str) -> Result<(), AllocError>
        ensures declared { OnOk result (IsTrue (is_declared self.new.declared name.now)) }
        ensures same { (other : List ℕ) → value_at self.new.declared other ≡ value_at self.old.declared other }
        ensures unchanged { (other : List ℕ) → IsTrue (is_declared self.old.declared other) →
            IsTrue (is_declared self.new.declared other) }
    {
        if self.declared.contains_key(name) {
            return Ok(());
        }
        let key = String::from_str(self.alloc, name)?;
        self.declared.insert(key, None)?;
        Ok(())
    }

    /// Takes the value from under a name, which stays declared.
    pub fn take(&mut self, name: &str) -> Option<V>
        ensures taken { result ≡ value_at self.old.declared name.now }
        ensures declared { IfSome result (λ _. IsTrue (is_declared self.new.declared name.now)) }
        ensures left { (other : List ℕ) → value_at self.new.declared other ≡
            update bytes_eq (value_at self.old.declared) name.now None other }
    {
        match self.declared.get_mut(name) {
            Some(place) => place.take(),
            None => None,
        }
    }

    /// Binds a name, which is declared, to a value.
    pub fn bind(&mut self, name: &str, value: V)
        requires { IsTrue (is_declared self.old.declared name.now) }
        ensures bound { (other : List ℕ) → value_at self.new.declared other ≡
            update bytes_eq (value_at self.old.declared) name.now (Some value) other }
        ensures unchanged { (other : List ℕ) → IsTrue (is_declared self.old.declared other) →
            IsTrue (is_declared self.new.declared other) }
    {
        // A declared name is always there.
        if let Some(value_now) = self.declared.get_mut(name) {
            *value_now = Some(value);
        }
    }
}
