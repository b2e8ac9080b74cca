//! Worked formulas and refutations, random formulas, and the comparison with the plain program.

ghost use Rattle.std.specs.Prelude.{◌≡◌, ◌<◌, IfOk};

use crate::formulas::{add, are_shown, formula, steps_of};
use crate::plain::plain_least;
use ipa_sat::{Cnf, List, Lit, Solved, is_satisfied, least, solve, solve_shown};
use std::alloc::{AllocError, Global};
use std::test::Fail;

/// Some formulas: the number of variables, the clauses, and the values of the first assignment.
const FORMULAS: [(u32, &str, &str); 7] = [
    (2, "1 2 0 -1 2 0", "01"),
    (2, "0", "none"),
    (0, "", ""),
    (0, "0", "none"),
    // a clause with a literal and its opposite asks for nothing; repeated literals are one
    (3, "1 -1 0 2 2 2 0 -2 3 -2 3 0", "011"),
    (1, "1 0 -1 0", "none"),
    (2, "1 2 0 1 -2 0 -1 2 0 -1 -2 0", "none"),
];

/// Some lists of steps, and whether they are a refutation: the number of variables, the clauses, the
/// steps.
const REFUTATIONS: [(u32, &str, &str, bool); 12] = [
    (1, "1 0", "0", false),
    (1, "1 0 -1 0", "", false),
    (1, "1 0 -1 0", "0", true),
    (0, "0", "0", true),
    // what does not follow by units alone needs a step in between
    (2, "1 2 0 1 -2 0 -1 2 0 -1 -2 0", "0", false),
    (2, "1 2 0 1 -2 0 -1 2 0 -1 -2 0", "1 0", false),
    (2, "1 2 0 1 -2 0 -1 2 0 -1 -2 0", "1 0 0", true),
    (2, "1 2 0 1 -2 0 -1 2 0 -1 -2 0", "0 1 0", false),
    // a step with a literal and its opposite follows; a literal counts once
    (2, "1 2 0 1 -2 0 -1 2 0 -1 -2 0", "1 -1 0 2 2 0 0", true),
    (2, "1 1 2 0 -1 0", "2 2 0", false),
    (2, "1 1 2 0 -1 -1 0 -2 0", "0", true),
    // nothing follows from the clause alone but what is weaker
    (2, "1 2 0", "1 0 0", false),
];

/// The values of an assignment as text.
fn text_of(alloc: Global, answer: &Option<Vec<bool>>) -> Result<String, AllocError> {
    let mut text = String::new(alloc);
    match answer {
        None => text.push_str("none")?,
        Some(values) => {
            for value in values {
                text.push(if *value { '1' } else { '0' })?;
            }
        }
    }
    Ok(text)
}

#[test]
fn finds_the_first_assignment(rt: HostRuntime) -> Result<(), Fail> {
    for (vars, clauses, first) in FORMULAS {
        let cnf = formula(rt.alloc(), vars, clauses)?;
        let found = least(rt.alloc(), &cnf.copy()?)?;
        let text = text_of(rt.alloc(), &found)?;
        assert_eq!(rt; text.as_str(), first, "for {clauses}");
        assert_eq!(rt;
            solve(rt.alloc(), &cnf)?.is_some(),
            found.is_some(),
            "for {clauses}"
        );
    }
    Ok(())
}

#[test]
fn tells_refutations(rt: HostRuntime) -> Result<(), Fail> {
    for (vars, clauses, steps, right) in REFUTATIONS {
        let cnf = formula(rt.alloc(), vars, clauses)?;
        let steps = steps_of(rt.alloc(), steps)?;
        assert_eq!(rt;
            are_shown(rt.alloc(), &cnf, &steps)?,
            right,
            "for {clauses}"
        );
    }
    Ok(())
}

/// Whether the answer shows itself: a model satisfies the formula, a refutation is one.
fn shows(alloc: Global, cnf: &Cnf) -> Result<bool, AllocError> {
    match solve_shown(alloc, cnf)? {
        Solved::Model(values) => Ok(is_satisfied(cnf, values.as_slice())),
        Solved::Refuted(steps) => are_shown(alloc, cnf, &steps),
    }
}

/// Of 64 variables in pairs, one of each pair is true, and the last pair can have no values. A
/// search that steps back one decision at a time goes through all values of the other pairs.
#[test]
fn refutes_the_last_of_many_pairs(rt: HostRuntime) -> Result<(), Fail> {
    let mut cnf = formula(rt.alloc(), 64, "63 64 0 63 -64 0 -63 64 0 -63 -64 0")?;
    for pair in 0..31u32 {
        let first = Lit {
            var: 2 * pair,
            positive: true,
        };
        let second = Lit {
            var: 2 * pair + 1,
            positive: true,
        };
        add(&mut cnf, &[first, second])?;
    }
    assert!(rt; solve(rt.alloc(), &cnf)?.is_none());
    assert!(rt; matches!(solve_shown(rt.alloc(), &cnf)?, Solved::Refuted(_)));
    assert!(rt; shows(rt.alloc(), &cnf)?);
    Ok(())
}

/// The next number below `end` of a sequence that looks random.
fn draw(seed: &mut u64, end: u32) -> u32
    requires { 0 < end }
    ensures { result < end }
{
    *seed = seed
        .wrapping_mul(6_364_136_223_846_793_005)
        .wrapping_add(1_442_695_040_888_963_407);
    (*seed >> 33) as u32 % end
}

fn draw_lit(seed: &mut u64, vars: u32) -> Lit
    requires { 0 < vars }
    ensures { result.var < vars }
{
    Lit {
        var: draw(seed, vars),
        positive: draw(seed, 2) == 0,
    }
}

/// Some clauses of `least` to three literals.
fn draw_cnf(
    alloc: Global,
    seed: &mut u64,
    vars: u32,
    clauses: u32,
    least: u32,
) -> Result<Cnf, AllocError>
    requires { 0 < vars }
{
    let mut cnf = Cnf::new(alloc, vars);
    for _ in 0..clauses {
        let lits = [
            draw_lit(seed, vars),
            draw_lit(seed, vars),
            draw_lit(seed, vars),
        ];
        let size = (least.min(3) + draw(seed, 12)).min(3);
        add(&mut cnf, &lits[..size as usize])?;
    }
    Ok(cnf)
}

/// The search answers what the plain program answers.
#[test]
fn agrees_with_the_plain_program(rt: HostRuntime) -> Result<(), Fail> {
    let mut seed = 2026;
    let mut satisfied = 0u32;
    for round in 0..400u32 {
        let vars = 1 + draw(&mut seed, 8);
        let cnf = draw_cnf(rt.alloc(), &mut seed, vars, round % 40, 1)?;
        let found = least(rt.alloc(), &cnf)?;
        if found.is_some() {
            satisfied = satisfied.wrapping_add(1);
        }
        assert_eq!(rt; found, plain_least(rt.alloc(), &cnf)?, "in round {round}");
    }
    assert!(rt; satisfied > 100 && satisfied < 300, "{satisfied}");
    Ok(())
}

/// Clauses of three literals, about as many as leave both answers open; each answer shows itself.
#[test]
fn shows_its_answers(rt: HostRuntime) -> Result<(), Fail> {
    let mut seed = 7;
    let mut satisfied = 0u32;
    for round in 0..40u32 {
        let vars = 20 + round % 21;
        let cnf = draw_cnf(rt.alloc(), &mut seed, vars, vars * 9 / 2, 3)?;
        if solve(rt.alloc(), &cnf)?.is_some() {
            satisfied = satisfied.wrapping_add(1);
        }
        assert!(rt; shows(rt.alloc(), &cnf)?, "in round {round}");
    }
    assert!(rt; satisfied > 5 && satisfied < 35, "{satisfied}");
    Ok(())
}

/// A list gives back what was put in.
#[test]
fn keeps_the_items_of_a_list(rt: HostRuntime) -> Result<(), Fail> {
    let mut list: List<u32> = List::new(rt.alloc());
    list.push(3)?;
    list.push(5)?;
    assert_eq!(rt; list.len(), 2);
    assert_eq!(rt; list.get(1).copied(), Some(5));
    assert_eq!(rt; list.get(2).copied(), None);
    let back = List::from_vec(list.into_vec());
    assert_eq!(rt; back.as_slice(), [3, 5].as_slice());
    Ok(())
}
