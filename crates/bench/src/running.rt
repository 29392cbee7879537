//! The board's part: a long loop that hides nothing, with words of many kinds.
ghost use Rattle.std.specs.Prelude.{◌≡◌, ◌+◌, ◌*◌};

use anyhow::anyhow;
use avr::location::Location;
use board::Board;
use board::fault::CallFault;
use machine::phase::Ending;
use std::time::Instant;

/// The routine. Pair 24 holds how many rounds it makes; a round makes 32 turns, and each turn calls a function.
const ROUTINE: [u16; 33] = [
    0xE12D, // ldi r18, 29
    0xE0A0, // ldi r26, 0     a round: X is 256
    0xE0B1, // ldi r27, 1
    0xE0C0, // ldi r28, 0     Y is 512
    0xE0D2, // ldi r29, 2
    0xE240, // ldi r20, 32
    0x910D, // ld r16, X+     a turn
    0x0F02, // add r16, r18
    0x1F10, // adc r17, r16
    0x9506, // lsr r16
    0x9517, // ror r17
    0x2721, // eor r18, r17
    0x9F02, // mul r16, r18
    0x0D20, // add r18, r0
    0x1D11, // adc r17, r1
    0x9319, // st Y+, r17
    0x815B, // ldd r21, Y+3
    0x1B15, // sub r17, r21
    0x0B24, // sbc r18, r20
    0x01F8, // movw r30, r16
    0x7FE0, // andi r30, 240
    0x3241, // cpi r20, 33
    0xF428, // brcc           to the last ret; never taken
    0xD005, // rcall          the function
    0x954A, // dec r20
    0xF761, // brne           the next turn
    0x9701, // sbiw r24, 1
    0xF729, // brne           the next round
    0x9508, // ret
    0x9533, // inc r19        the function
    0x2F63, // mov r22, r19
    0x9635, // adiw r30, 5
    0x9508, // ret
];

/// How many rounds a short run makes.
const SHORT: u16 = 100;

/// How many rounds a long run makes.
const LONG: u16 = 65535;

/// How many instructions a run of so many rounds carries out: two besides the rounds, and 775 in each.
fn instructions(rounds: u16) -> u64
    ensures { result ≡ 2 + 775 * rounds }
{
    2 + 775 * u64::from(rounds)
}

/// What an ending carries.
fn cycles_of(ending: Ending) -> u32 {
    match ending {
        Ending::Spent(cycles) | Ending::Ended(cycles) | Ending::Stopped(_, cycles) => cycles,
    }
}

/// Clears the board and makes one run of so many rounds: its cycles, and the byte that it leaves in register 18.
fn play(board: &mut Board, rounds: u16) -> Result<(u32, u8), CallFault> {
    board.clear();
    let [low, high] = rounds.to_le_bytes();
    board.put(Location::Register(24), low)?;
    board.put(Location::Register(25), high)?;
    let cycles = cycles_of(board.run(u32::MAX));
    Ok((cycles, board.read(Location::Register(18))?))
}

/// One short run, and what came of it: always the same line.
pub(crate) fn show(rt: &HostRuntime) -> anyhow::Result<()> {
    let mut memory = [0u8; 65536];
    let Ok(mut board) = Board::try_new(&ROUTINE, &mut memory) else {
        return Err(anyhow!("no board can be made"));
    };
    let (cycles, byte) = play(&mut board, SHORT).map_err(|_| anyhow!("a call was refused"))?;
    let carried_out = instructions(SHORT);
    println!(rt; "{carried_out} instructions, {cycles} cycles, register 18 holds {byte}")?;
    Ok(())
}

/// So many long runs, and how fast they went.
pub(crate) fn measure(rt: &HostRuntime, runs: u32) -> anyhow::Result<()> {
    let mut memory = [0u8; 65536];
    let Ok(mut board) = Board::try_new(&ROUTINE, &mut memory) else {
        return Err(anyhow!("no board can be made"));
    };
    let start = Instant::now(rt)?;
    let mut cycles = 0u64;
    let mut last = 0;
    for _ in 0..runs {
        let (spent, byte) = play(&mut board, LONG).map_err(|_| anyhow!("a call was refused"))?;
        cycles = cycles.saturating_add(u64::from(spent));
        last = byte;
    }
    let micros = start.elapsed(rt)?.as_micros().max(1);
    let carried_out = u64::from(runs).saturating_mul(instructions(LONG));
    let rate = u128::from(carried_out) * 1_000_000 / micros;
    println!(rt; "{carried_out} instructions, {cycles} cycles, register 18 holds {last}")?;
    println!(rt; "{micros} microseconds, {rate} instructions per second")?;
    Ok(())
}
