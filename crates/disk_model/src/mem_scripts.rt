ghost use Rattle.std.specs.Prelude.{◌≡◌, ◌≢◌, ◌∷◌, List, ℕ, None, Some, IfOk};
ghost use Rattle.std.specs.Option.{option_copied};
ghost use Rattle.disk_model.specs.ScriptTexts.{text_of};

use crate::files::copy_from;
use crate::script_text::ScriptText;
use crate::turns::Turns;
use crate::{FailPlan, Failed, Scripts};
use peb_base::Memory;
use std::alloc::Global;

/// Scripts in memory, for tests. A call that asks for a name that isn't there fails, as do those of
/// the plan.
#[derive(Drop)]
pub struct MemScripts {
    alloc: Global,
    turns: Turns,
    scripts: Vec<ScriptText>,
}

fn find<'a>(scripts: &'a [ScriptText], name: &str) -> Option<&'a [u8]>
    ensures { option_copied result ≡ text_of scripts.now name.now }
{
    match scripts {
        [] => None,
        [script, rest @ ..] => {
            if name == script.name.as_str() {
                Some(&script.text)
            } else {
                find(rest, name)
            }
        }
    }
}

impl MemScripts {
    /// No scripts yet.
    pub fn new(alloc: Global, plan: FailPlan) -> MemScripts
        ensures none { (name : List ℕ) → ⟦<MemScripts as Scripts>⟧.text result name ≡ None }
        ensures faults { ⟦<MemScripts as Scripts>⟧.faults result ≡ 0 }
    {
        MemScripts {
            alloc,
            turns: Turns::new(plan),
            scripts: Vec::new(alloc),
        }
    }

    /// The scripts with one more, in place of any of its name.
    ///
    /// Memory is the one refusal; the scripts are then gone.
    pub fn with(self, name: &str, text: &[u8]) -> Result<MemScripts, Memory>
        ensures this { IfOk result (λ after. ⟦<MemScripts as Scripts>⟧.text after name.now
            ≡ Some text.now) }
        ensures others { IfOk result (λ after. (other : List ℕ) → other ≢ name.now →
            ⟦<MemScripts as Scripts>⟧.text after other
            ≡ ⟦<MemScripts as Scripts>⟧.text self other) }
        ensures faults { IfOk result (λ after. ⟦<MemScripts as Scripts>⟧.faults after
            ≡ ⟦<MemScripts as Scripts>⟧.faults self) }
    {
        let mut scripts = self.scripts;
        let name = String::from_str(self.alloc, name)?;
        let text = text.to_vec(self.alloc)?;
        scripts.insert(0, ScriptText { name, text })?;
        Ok(MemScripts {
            alloc: self.alloc,
            turns: self.turns,
            scripts,
        })
    }
}

impl Scripts for MemScripts {
    ghost use Rattle.disk_model.specs.ScriptTexts.{text_of};

    ghost text = { λ s name. text_of s.scripts.items name };

    ghost faults = { λ s. s.turns.faults };

    fn fetch(&mut self, name: &str, at: u64, out: &mut [u8]) -> Result<usize, Failed> {
        self.turns.begin()?;
        match find(&self.scripts, name) {
            Some(text) => Ok(copy_from(text, at, out)),
            None => Err(self.turns.fail()),
        }
    }
}
