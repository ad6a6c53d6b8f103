//! The scope paths of a file's entries (DWARF 5, section 2.13.2).
//!
//! Most entries stand in one that was passed before them, whose scope is at hand. The scope of any other path is kept by the
//! place of its first member, for each member that is passed, and each member is passed once.

ghost use Rattle.std.specs.Prelude.{◌≡◌, ◌+◌, ◌<◌, ◌≤◌, map, min, slice_get, true, Contains, IfOk, IfSome, IsOkAnd, Ok, Err};
ghost use Rattle.std.specs.Arc.{arc_value};
ghost use Rattle.ix_base.specs.declared.code.TheConstants.{REFERENCE_CHAIN};
ghost use Rattle.ix_base.specs.declared.or_memory.OrMemory.TheVariants as stops;
ghost use Rattle.ix_base.specs.declared.limits.TheConstants.{MAX_PATH_STEPS};
ghost use Rattle.index_model.specs.Gives.{GivesFor};
ghost use Rattle.index_model.specs.Meaning.{at_place, fault};
ghost use Rattle.index_model.specs.Names.{scope_path};
ghost use Rattle.shard_build.specs.Entries.{AreShardsOfFile};
ghost use Rattle.parent_resolve.specs.Followed.{followed_of, ForEntry, HasEntry};
ghost use Rattle.parent_resolve.specs.Scopes.{greatest, IsScope};
ghost use Rattle.parent_resolve.specs.Traced.{IsTraced};
ghost use Rattle.parent_resolve.specs.Paths.{EndIn, ForAround, ForEnd, IsPassedOver, IsScopeAround};
ghost use Rattle.parent_resolve.specs.declared.scope.ScopeAround.{ScopeAround as ScopeAroundOf};

use crate::members::{step_at, too_long};
use crate::references::References;
use crate::scope::{PathMember, Scope, ScopeAround, component, may_hold_scopes, part_length};
use crate::traced::Traced;
use file_image::Image;
use index_model::{Node, Nodes, Shard};
use indexmap::IndexMap;
use ix_base::{MAX_PATH_STEPS, NoMemory, Stop};
use std::alloc::Global;
use std::marker::Model;
use std::sync::Arc;

/// The references of a file's entries, and the scopes that are known so far, each by the joint offset of the path's first
/// member.
#[derive(Drop)]
pub(crate) struct Paths<'s, 'f> {
    references: References<'s, 'f>,
    known: IndexMap<u64, Scope>,
    // Those that were asked of late, by rising offsets: most entries stand in one that was passed before them.
    recent: Vec<ScopeAround>,
}

impl<'s, 'f> Model for Paths<'s, 'f> {
    ghost use Rattle.shard_build.specs.Entries.{EntriesOf};
    ghost use Rattle.parent_resolve.specs.Paths.{AreRecent, AreScopes};

    ghost Value = { EntriesOf };

    ghost view = { λ s. s.references };

    ghost invariant = { λ s. AreScopes s.references s.known × AreRecent s.references s.recent.items };
}

impl<'s, 'f> Paths<'s, 'f> {
    /// The paths of a file, of which none is known yet.
    pub(crate) fn new(
        alloc: Global,
        image: &'s Image<'f>,
        shards: &'s [Arc<Shard<'f>>],
    ) -> Result<Paths<'s, 'f>, NoMemory>
        requires { AreShardsOfFile image.now (map arc_value shards.now) }
        ensures { IfOk result (λ r. r ≡ record { image = image.now; shards = map arc_value shards.now }) }
    {
        Ok(Paths {
            references: References::new(alloc, image, shards)?,
            known: IndexMap::new(alloc),
            recent: Vec::new(alloc),
        })
    }

    /// The chain of an entry, and the name that the file spells for it. A fault has the place `at`.
    pub(crate) fn follow(
        &mut self,
        alloc: Global,
        node: &Node<'f>,
        at: u64,
    ) -> Result<Traced<'f>, Stop>
        ensures value { ForEntry self.old node.now (λ p d. GivesFor (IsTraced p d) result (at_place at (followed_of p d))) }
        ensures kept { self.new ≡ self.old }
    {
        if let Some(traced) = Traced::alone(node) {
            return Ok(traced);
        }
        self.references.follow(alloc, node, at)
    }

    /// The scope of the path around an entry with this lexical parent, or with none. A fault has the place `at`.
    pub(crate) fn around(
        &mut self,
        alloc: Global,
        parent: Option<u64>,
        at: u64,
    ) -> Result<Scope, Stop>
        ensures value { ForEnd self.old parent (λ p e. GivesFor IsScope result (at_place at (scope_path p e))) }
        ensures kept { self.new ≡ self.old }
    {
        match parent {
            Some(parent) => self.around_parent(alloc, parent, at),
            None => Ok(Scope::EMPTY),
        }
    }

    // The scope of the path around an entry with this lexical parent. It is at hand from then on.
    fn around_parent(&mut self, alloc: Global, parent: u64, at: u64) -> Result<Scope, Stop>
        ensures value { ForAround self.old parent (λ p d. GivesFor IsScope result (at_place at (scope_path p d))) }
        ensures kept { self.new ≡ self.old }
    {
        if let Some(scope) = self.at_hand(parent) {
            return Ok(scope);
        }
        let scope = self.follow_path(alloc, parent, at)?;
        self.recent.push(ScopeAround { parent, scope })?;
        Ok(scope)
    }

    // The scope of the path around an entry with this lexical parent, if it was asked of late. Those behind it aren't at hand
    // from then on.
    fn at_hand(&mut self, parent: u64) -> Option<Scope>
        ensures value { IfSome result (IsScopeAround self.old parent) }
        ensures kept { self.new ≡ self.old }
    {
        if let Some(scope) = last_around(&self.recent, parent) {
            return Some(scope);
        }
        drop_behind(&mut self.recent, parent);
        last_around(&self.recent, parent)
    }

    /// Takes in the scope around what is in an entry that was followed, where this is the scope around the end of its chain.
    pub(crate) fn enter(
        &mut self,
        node: &Node<'f>,
        traced: &Traced<'f>,
        scope: Scope,
    ) -> Result<(), NoMemory>
        requires entry { HasEntry self.old node.now }
        requires traced { ForEntry self.old node.now (λ p d. IsOkAnd (at_place node.now.offset (followed_of p d)) (IsTraced p d traced.now)) }
        requires scope { ForEnd self.old traced.now.around (λ p e. IsOkAnd (at_place node.now.offset (scope_path p e)) (IsScope scope)) }
        ensures { self.new ≡ self.old }
    {
        if !may_hold_scopes(node) || node.parent.is_none() || traced.around.is_none() {
            return Ok(());
        }
        if scope.steps >= MAX_PATH_STEPS {
            return Ok(());
        }
        let part = part_length(component(node, traced.spelled));
        self.recent.push(ScopeAround {
            parent: node.offset,
            scope: scope.with(part),
        })?;
        Ok(())
    }

    /// Whether a few looks tell that the node with this index is that of a declaration, which no index lists, and that nothing is wrong
    /// with its references.
    #[inline(always)]
    pub(crate) fn passes(&self, nodes: &Nodes<'f>, index: usize) -> bool
        ensures { result ≡ true → IfSome (slice_get nodes.now index) (IsPassedOver self.now) }
    {
        match last_of(&self.recent) {
            Some(around) => nodes.is_declared_in(index, around.parent),
            None => false,
        }
    }

    // The scope that is known of the path around an entry with this lexical parent.
    fn known_at(&self, parent: u64) -> Option<Scope>
        ensures { IfSome result (IsScopeAround self.now parent) }
    {
        self.known.get(&parent).copied()
    }

    // Follows the path around an entry with this lexical parent, outwards up to a known scope or to the end. The scopes around
    // the members that it passes are known from then on, so that no member is passed twice.
    fn follow_path(&mut self, alloc: Global, parent: u64, at: u64) -> Result<Scope, Stop>
        ensures value { ForAround self.old parent (λ p d. GivesFor IsScope result (at_place at (scope_path p d))) }
        ensures kept { self.new ≡ self.old }
    {
        let mut scope = Scope::EMPTY;
        let mut around = parent;
        let mut passed = Vec::new(alloc);
        while scope.steps < MAX_PATH_STEPS {
            if let Some(outer) = self.known_at(around) {
                let whole = joined(scope, outer, at)?;
                self.keep(passed, outer)?;
                return Ok(whole);
            }
            let step = step_at(&mut self.references, alloc, around, at)?;
            let part = part_length(step.component);
            passed.push(PathMember {
                offset: around,
                part,
            })?;
            scope = scope.with(part);
            match step.around {
                Some(parent) => around = parent,
                None => {
                    self.keep(passed, Scope::EMPTY)?;
                    return Ok(scope);
                }
            }
        }
        Err(too_long(at))
    }

    // Takes in the scopes around these members of a path, from the outside inwards. This is the scope behind the last.
    fn keep(&mut self, mut passed: Vec<PathMember>, mut scope: Scope) -> Result<(), NoMemory>
        requires { EndIn self.old passed.items scope }
        ensures { self.new ≡ self.old }
    {
        while let Some(member) = passed.pop() {
            scope = scope.with(member.part);
            self.know(member.offset, scope)?;
        }
        Ok(())
    }

    // Takes in the scope around what is in one member.
    fn know(&mut self, member: u64, scope: Scope) -> Result<(), NoMemory>
        requires { IsScopeAround self.old member scope }
        ensures { self.new ≡ self.old }
    {
        self.known.insert(member, scope)?;
        Ok(())
    }
}

// The last of these scopes.
#[inline(always)]
fn last_of(recent: &Vec<ScopeAround>) -> Option<ScopeAround>
    ensures { IfSome result (Contains recent.now.items) }
{
    recent.last().copied()
}

// The last of these scopes, if it is that around what is in this parent.
fn last_around(recent: &Vec<ScopeAround>, parent: u64) -> Option<Scope>
    ensures { IfSome result (λ s. Contains recent.now.items (record { parent = parent; scope = s })) }
{
    let last = last_of(recent)?;
    if last.parent == parent {
        Some(last.scope)
    } else {
        None
    }
}

// Takes away the scopes whose parents stand behind this one.
fn drop_behind(recent: &mut Vec<ScopeAround>, parent: u64)
    ensures { (s : ScopeAroundOf) → Contains recent.new.items s → Contains recent.old.items s }
{
    let kept = recent.partition_point(|around| around.parent <= parent);
    recent.truncate(kept);
}

// The scope with the path around its last member, if both together don't have too many steps.
fn joined(scope: Scope, outer: Scope, at: u64) -> Result<Scope, Stop>
    requires { scope.steps ≤ MAX_PATH_STEPS }
    ensures fits { scope.steps + outer.steps ≤ MAX_PATH_STEPS → result ≡ Ok (record { steps = scope.steps + outer.steps; length = min greatest (scope.length + outer.length) }) }
    ensures long { MAX_PATH_STEPS < scope.steps + outer.steps → result ≡ Err (stops.Cause (fault REFERENCE_CHAIN at)) }
{
    if outer.steps <= MAX_PATH_STEPS - scope.steps {
        Ok(scope.within(outer))
    } else {
        Err(too_long(at))
    }
}
