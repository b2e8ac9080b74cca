//! The race for the last place: players enrol in a cup, and a cup has one place.
ghost use Rattle.std.specs.Prelude.{◌≡◌, ◌≤◌, [], IfOk};

use ipa_bounds::within;
use ipa_gate::Setting;
use ipa_logic::{State, Universe, keeps};
use ipa_pairs::accept;
use ipa_spec::{Arg, Bound, Effect, List, Name, Operation, Pick, Predicate, Rule, Spec, Var};
use std::alloc::Global;
use std::test::Fail;
use std::thread::Threads;

fn name(bytes: &[u8]) -> Result<Name, Fail> {
    let name = Name::new(bytes).ok_or("these bytes are a name")?;
    Ok(name)
}

/// The list of one item.
fn only<T: Drop>(alloc: Global, item: T) -> Result<List<T>, Fail> {
    let mut list = List::new(alloc);
    list.push(item)?;
    Ok(list)
}

/// The variables of a player and a cup.
fn variables(alloc: Global) -> Result<List<Var>, Fail> {
    let mut variables = List::new(alloc);
    variables.push(Var {
        name: name(b"p")?,
        sort: 0,
    })?;
    variables.push(Var {
        name: name(b"t")?,
        sort: 1,
    })?;
    Ok(variables)
}

/// Enrolling a player in a cup.
fn enrolling(alloc: Global) -> Result<Operation, Fail> {
    let effect = Effect {
        add: true,
        predicate: 0,
        args: [Arg::Var(0), Arg::Var(1), Arg::Any],
    };
    Ok(Operation {
        name: name(b"enroll")?,
        params: variables(alloc)?,
        needs: List::new(alloc),
        effects: only(alloc, effect)?,
    })
}

/// The bound of a cup: one player.
fn bound(alloc: Global) -> Result<Bound, Fail> {
    Ok(Bound {
        name: name(b"cap")?,
        predicate: 0,
        vars: [name(b"p")?, name(b"t")?, name(b"p")?],
        counted: 0,
        most: 1,
        removes: List::new(alloc),
        pick: Pick::Greatest,
    })
}

/// The specification of the race.
fn spec_of(alloc: Global) -> Result<Spec, Fail>
    ensures { IfOk result (λ spec. spec.constants ≡ []) }
{
    let mut sorts = List::new(alloc);
    sorts.push(name(b"player")?)?;
    sorts.push(name(b"cup")?)?;
    let enrolled = Predicate {
        name: name(b"enrolled")?,
        arity: 2,
        sorts: [0, 1, 0],
        rule: Rule::AddWins,
    };
    let predicates = only(alloc, enrolled)?;
    let operations = only(alloc, enrolling(alloc)?)?;
    let bounds = only(alloc, bound(alloc)?)?;
    let spec = Spec::new(
        sorts,
        List::new(alloc),
        predicates,
        List::new(alloc),
        operations,
        bounds,
    );
    let spec = spec.ok().ok_or("the race is a specification")?;
    Ok(spec)
}

/// The setting of the race: three players and one cup, and this many sessions.
pub fn setting_of<R: AllocGlobal + Threads + Sync>(rt: &R, sessions: u8) -> Result<Setting, Fail>
    requires { sessions ≤ 16 }
{
    let alloc = rt.alloc();
    let spec = spec_of(alloc)?;
    let universe = Universe {
        sizes: [3, 1, 0, 0, 0, 0, 0, 0],
    };
    let base = State::new(alloc);
    if let Some(_) = keeps(&spec, &universe, &base) {
        return Err(Fail::from("the base keeps the clauses"));
    }
    if !within(&spec, &base) {
        return Err(Fail::from("the base is within the bounds"));
    }
    let accepted = accept(rt, alloc, spec).ok().ok_or("the race is accepted")?;
    Ok(Setting::new(accepted, universe, base, sessions))
}
