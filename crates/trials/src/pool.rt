//! The pieces of one value, made by the caller alone and then by one worker. They are made again if memory is refused.
use crate::printing_gate::PrintingGate;
use bytes::Bytes;
use coding_pool::{Gate, NoGate, encode_all};
use encoder::Coded;
use std::sync::Wait;
use std::thread::Threads;
use tag::Refusal;
use words::Hexadecimal;

// More tries than one refused request takes.
const TRIES: u32 = 3;

const VALUE: &[u8] = b"hello";

/// Prints the pieces as the caller makes them, and then as one worker does, with what it tells its gate. Returns
/// whether both were made.
pub(crate) fn play<R: Threads + Wait + Sync>(rt: &R, host: &HostRuntime) -> bool {
    insist(rt, host, 0, &NoGate) && insist(rt, host, 1, &PrintingGate { host })
}

/// Prints the four pieces, of which any two give the value back, as so many workers make them. If that is refused it
/// says so, and tries again. Returns whether they were made.
fn insist<G: Gate, R: Threads + Wait + Sync>(
    rt: &R,
    host: &HostRuntime,
    workers: usize,
    gate: &G,
) -> bool {
    for _ in 0..TRIES {
        match encode_all(
            rt,
            host.alloc(),
            workers,
            gate,
            2,
            4,
            Bytes::from_static(VALUE),
        ) {
            Ok(coded) => {
                print_pieces(host, &coded);
                return true;
            }
            Err(refusal) => print_refusal(host, refusal),
        }
    }
    false
}

/// Prints each piece in hexadecimal on a line of its own.
fn print_pieces(host: &HostRuntime, coded: &Coded) {
    for point in 0..coded.n() {
        let _ = println!(host; "{}", Hexadecimal(coded.piece_at(point).bytes.as_slice()));
    }
}

fn print_refusal(host: &HostRuntime, refusal: Refusal) {
    let _ = println!(host; "refused {}", refusal.name());
}
