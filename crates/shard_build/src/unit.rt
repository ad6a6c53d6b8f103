//! The tokens of a unit, one after the other.

ghost use Rattle.std.specs.Prelude.{◌≡◌, ◌+◌, ◌<◌, ◌^◌, Contains, OnOk, reverse};
ghost use Rattle.ix_base.specs.declared.fault.Fault.{Fault as FaultOf};
ghost use Rattle.entry_scan.specs.Tokens.{token_seen};
ghost use Rattle.index_model.specs.Gives.{Gives, GivesAlways};
ghost use Rattle.index_model.specs.Strings.{str};
ghost use Rattle.index_model.specs.Walk.{Item as EntryOf, items};
ghost use Rattle.shard_build.specs.Kept.{kept_seen, entered, with_others, closed, behind};
ghost use Rattle.shard_build.specs.Texts.{HoldsTexts};
ghost use Rattle.shard_build.specs.Tokens.{OnEntry, ended, behind_walk};

use crate::home::UnitInFile;
use crate::kept::{ItemsSoFar, add_import, add_node, add_span, open};
use crate::open::{innermost, is_visited_in};
use entry_scan::{Item, Token, Walk};
use ix_base::{Fault, NoMemory, Stop};

impl<'f> ItemsSoFar<'f> {
    // Takes in an entry.
    #[tactic(auto, unfolding(crate::specs::Kept::entered))]
    fn enter(&mut self, home: &UnitInFile<'_, 'f>, entry: &Item<'_>) -> Result<(), Stop>
        requires small { home.now.unit.start + home.now.unit.length < 2 ^ 63 }
        requires texts { HoldsTexts home.now.bytes.now home.now.unit entry.now }
        requires strings { self.old.nodes.strings ≡ str home.now.sections.now }
        ensures strings { OnOk result (self.new.nodes.strings ≡ self.old.nodes.strings) }
        ensures value { Gives (λ _. kept_seen self.new) result (entered home.now.sections.now (home.now.number, home.now.unit) (kept_seen self.old) entry.now) }
    {
        self.frame.learn(entry);
        let outer = innermost(&self.opened);
        let visited = is_visited_in(outer, self.frame.ada);
        add_node(
            &mut self.nodes,
            &mut self.places,
            home,
            &self.frame,
            outer,
            visited,
            entry,
        )?;
        self.add_others(home, entry, visited)?;
        Ok(())
    }

    // Takes in what of an entry isn't its node.
    fn add_others(
        &mut self,
        home: &UnitInFile<'_, 'f>,
        entry: &Item<'_>,
        visited: bool,
    ) -> Result<(), NoMemory>
        requires { home.now.unit.start + home.now.unit.length < 2 ^ 63 }
        ensures strings { OnOk result (self.new.nodes.strings ≡ self.old.nodes.strings) }
        ensures value { OnOk result (kept_seen self.new ≡ with_others home.now.sections.now (home.now.number, home.now.unit) (kept_seen self.old) entry.now visited) }
    {
        open(&mut self.opened, entry, visited, self.spans.len())?;
        add_span(&mut self.spans, home, entry)?;
        add_import(&mut self.imports, home, entry)
    }

    // Takes in a null, which ends the children of the innermost open entry.
    fn close(&mut self, after: u64) -> Result<(), NoMemory>
        ensures strings { OnOk result (self.new.nodes.strings ≡ self.old.nodes.strings) }
        ensures value { OnOk result (kept_seen self.new ≡ closed (kept_seen self.old) (reverse self.old.opened.items) after) }
    {
        match self.opened.pop() {
            Some(open) => self.spans.end(open.span, after),
            None => Ok(()),
        }
    }

    // Takes in a token.
    fn take(&mut self, home: &UnitInFile<'_, 'f>, token: &Token<'_>) -> Result<(), Stop>
        requires small { home.now.unit.start + home.now.unit.length < 2 ^ 63 }
        requires texts { OnEntry (token_seen token.now) (HoldsTexts home.now.bytes.now home.now.unit) }
        requires strings { self.old.nodes.strings ≡ str home.now.sections.now }
        ensures strings { OnOk result (self.new.nodes.strings ≡ self.old.nodes.strings) }
        ensures value { Gives (λ _. kept_seen self.new) result (behind home.now.sections.now (home.now.number, home.now.unit) (kept_seen self.old) (token_seen token.now)) }
    {
        match token {
            Token::Null { after, .. } => {
                self.close(*after)?;
                Ok(())
            }
            Token::Entry(item) => self.enter(home, item),
        }
    }

    /// Takes in the tokens of a walk. A fault of the walk comes before those of its texts.
    pub fn walk(&mut self, home: &UnitInFile<'_, 'f>, mut walk: Walk<'_>) -> Result<(), Stop>
        requires small { home.now.unit.start + home.now.unit.length < 2 ^ 63 }
        requires texts { (d : EntryOf) → Contains (items walk) d → HoldsTexts home.now.bytes.now home.now.unit d }
        requires strings { self.old.nodes.strings ≡ str home.now.sections.now }
        ensures strings { OnOk result (self.new.nodes.strings ≡ self.old.nodes.strings) }
        ensures value { Gives (λ _. kept_seen self.new) result (behind_walk home.now.sections.now (home.now.number, home.now.unit) (kept_seen self.old) walk.entry) }
    {
        let mut place = Token::Null { depth: 0, after: 0 };
        'tokens: while let Some(token) = walk.token()? {
            if self.passes(home, &token) {
                continue;
            }
            place = token;
            if let Err(stop) = self.take(home, &place) {
                finish(&mut walk)?;
                return Err(stop);
            }
        }
        Ok(())
    }
}

// The fault of what is left of a walk, if it has one.
fn finish(walk: &mut Walk<'_>) -> Result<(), Fault>
    ensures { GivesAlways (λ done. done) result (ended walk.old.end) }
{
    while let Some(_) = walk.next()? {}
    Ok(())
}
