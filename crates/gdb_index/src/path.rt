//! Along the scope path of an item.

ghost use Rattle.std.specs.Prelude.{◌≡◌, ◌++◌, filter_map, map, option_map, option_to_list, ℕ, IfOk, OnOk};
ghost use Rattle.cxx_spelling.specs.declared.release.Release.{Release};
ghost use Rattle.index_model.specs.Program.{Located};
ghost use Rattle.gdb_entries.specs.Files.{ForProgram};
ghost use Rattle.gdb_entries.specs.Names.{component};
ghost use Rattle.gdb_entries.specs.Scopes.{scope_of, scope_path};
ghost use Rattle.gdb_scopes.specs.Places.{offset_of, IsAt};
ghost use Rattle.gdb_index.specs.Steps.{IsStepAt};
ghost use Rattle.gdb_index.specs.Texts.{text_by};

use crate::both_texts::BothTexts;
use crate::names::FileNames;
use crate::step::Step;
use ix_base::{MAX_PATH_STEPS, NoMemory};
use std::alloc::Global;

impl<'s, 'r, 'f> FileNames<'s, 'r, 'f> {
    /// The components of the scope path of an item with this scope, the innermost first. There are none where the path is too long.
    pub(crate) fn components(
        &mut self,
        alloc: Global,
        scope: Option<u64>,
    ) -> Result<Vec<BothTexts<'f>>, NoMemory>
        ensures value { ForProgram self.old.file (λ p. (o : ℕ) (d : Located) → IsAt p o d → scope ≡ option_map offset_of (scope_of p d) → IfOk result (λ texts. (release : Release) → map (text_by release) texts.items ≡ filter_map (component release p) (scope_path p d))) }
        ensures kept { self.new ≡ self.old }
    {
        let mut texts = Vec::new(alloc);
        let mut left = MAX_PATH_STEPS;
        let mut next = scope;
        while let Some(member) = next {
            if left == 0 {
                return Ok(Vec::new(alloc));
            }
            let step = self.step(alloc, member)?;
            self.count_formed(step.size())?;
            add(&mut texts, step.component)?;
            left -= 1;
            next = step.scope;
        }
        Ok(texts)
    }

    // The step at the item with a joint offset, which is kept from then on.
    fn step(&mut self, alloc: Global, offset: u64) -> Result<Step<'f>, NoMemory>
        ensures value { IfOk result (IsStepAt self.old.file offset) }
        ensures kept { self.new ≡ self.old }
    {
        match self.steps.get(&offset) {
            Some(step) => step.share(),
            None => self.make_step(alloc, offset),
        }
    }

    // The same, where it isn't known yet.
    fn make_step(&mut self, alloc: Global, offset: u64) -> Result<Step<'f>, NoMemory>
        ensures value { IfOk result (IsStepAt self.old.file offset) }
        ensures kept { self.new ≡ self.old }
    {
        let step = Step::at(alloc, &mut self.places, self.texts, offset)?;
        self.steps.insert(offset, step.share()?)?;
        Ok(step)
    }
}

// Adds the component that a member of a path gives, if it gives one.
fn add<'f>(texts: &mut Vec<BothTexts<'f>>, component: Option<BothTexts<'f>>) -> Result<(), NoMemory>
    ensures { OnOk result ((release : Release) → map (text_by release) texts.new.items ≡ map (text_by release) texts.old.items ++ option_to_list (option_map (text_by release) component.entry)) }
{
    if let Some(text) = component {
        texts.push(text)?;
    }
    Ok(())
}
