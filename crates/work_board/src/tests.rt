ghost use Rattle.std.specs.Prelude.{◌≡◌};
ghost use Rattle.work_board.specs.Passes.{view_of, IsPassOf};
ghost use Rattle.work_board.specs.Views.{nones};

use crate::{DrawBoard, DrawPass, MarkBoard, NoMemory};
use std::alloc::Global;
use std::sync::atomic::{AtomicU64, Ordering};
use std::test::Fail;
use std::thread::{map_vec, yield_now};

#[test]
fn two_passes_draw_each_unit_once(rt: HostRuntime) -> Result<(), Fail> {
    let (board, mut first) = DrawBoard::open(rt.alloc(), 2)?;
    let mut second = board.split(&mut first)?;
    let Some(zero) = board.draw(&mut second) else {
        panic!(rt; "no unit is drawn yet")
    };
    let one = board.draw(&mut first);
    let none = board.draw(&mut second);
    assert!(rt; zero == 0 && one == Some(1) && none == None);
    board.join(&mut first, second);
    board.close(first);
    Ok(())
}

#[test]
fn the_second_pass_meets_a_marked_bit(rt: HostRuntime) -> Result<(), Fail> {
    let (board, mut first) = MarkBoard::open(rt.alloc(), 1)?;
    let mut second = board.split(&mut first)?;
    assert!(rt; board.mark(&mut second, 0) && !board.mark(&mut first, 0));
    board.join(&mut first, second);
    board.close(first);
    Ok(())
}

#[test]
fn an_empty_board_has_no_unit(rt: HostRuntime) -> Result<(), Fail> {
    let (board, mut pass) = DrawBoard::open(rt.alloc(), 0)?;
    assert!(rt; board.draw(&mut pass) == None);
    board.close(pass);
    let (marks, pass) = MarkBoard::open(rt.alloc(), 0)?;
    marks.close(pass);
    Ok(())
}

#[test]
fn a_pass_is_split_64_times(rt: HostRuntime) -> Result<(), Fail> {
    let (board, mut first) = DrawBoard::open(rt.alloc(), 1)?;
    for _time in 0..64_u64 {
        let pass = board.split(&mut first)?;
        board.join(&mut first, pass);
    }
    board.close(first);
    Ok(())
}

const UNITS: u64 = 10_000;

/// How often a worker looks whether another one is inside.
const TURNS: u32 = 10_000_000;

/// Counts the workers that came in, and holds each of them until there are two.
fn is_met(inside: &AtomicU64) -> bool {
    inside.fetch_add(1, Ordering::SeqCst);
    for _turn in 0..TURNS {
        if inside.load(Ordering::SeqCst) > 1 {
            return true;
        }
        yield_now();
    }
    false
}

/// Each unit that a worker drew with its square, and whether another worker came in while this one was
/// held with its first unit.
#[derive(Drop)]
struct Work {
    squares: Vec<(u64, u64)>,
    is_met: bool,
}

fn square_units(
    alloc: Global,
    board: &DrawBoard,
    inside: &AtomicU64,
    mut pass: DrawPass,
) -> Result<Work, NoMemory>
    requires own { IsPassOf board.now pass }
    requires open_ { nones (view_of pass) ≡ 0 }
{
    let mut squares = Vec::new(alloc);
    let mut met = true;
    while let Some(unit) = board.draw(&mut pass) {
        if squares.is_empty() {
            met = is_met(inside);
        }
        squares.push((unit, unit.wrapping_mul(unit)))?;
    }
    Ok(Work {
        squares,
        is_met: met,
    })
}

/// The squares at the places of their units.
fn place(squares: &[(u64, u64)], results: &mut [u64]) {
    for (unit, square) in squares {
        if let Some(result) = results.get_mut(*unit as usize) {
            *result = *square;
        }
    }
}

/// Whether the results are those of one thread, which squares the units in turn.
fn are_squares(results: &[u64]) -> bool {
    for unit in 0..results.len() {
        if results[unit] != (unit as u64).wrapping_mul(unit as u64) {
            return false;
        }
    }
    true
}

#[test]
fn four_workers_square_each_unit(rt: HostRuntime) -> Result<(), Fail> {
    let (board, mut first) = DrawBoard::open(rt.alloc(), UNITS)?;
    let second = board.split(&mut first)?;
    let third = board.split(&mut first)?;
    let fourth = board.split(&mut first)?;
    let passes = vec![in rt.alloc(); first, second, third, fourth]?;
    let inside = AtomicU64::new(0);
    let alloc = rt.alloc();
    let workers = map_vec(
        &rt,
        passes,
        &|pass: DrawPass| -> Result<Work, NoMemory>
            requires { IsPassOf board pass × (nones (view_of pass) ≡ 0) }
        { square_units(alloc, &board, &inside, pass) },
    )?;
    let mut results = vec![in rt.alloc(); 0; UNITS as usize]?;
    let mut count: usize = 0;
    for worker in workers {
        let Work { squares, is_met } = worker?;
        assert!(rt; is_met, "no second worker came in");
        count = count.wrapping_add(squares.len());
        place(&squares, &mut results);
    }
    assert!(rt; count == UNITS as usize && are_squares(&results));
    Ok(())
}
