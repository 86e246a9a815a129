ghost use Rattle.std.specs.Prelude.{◌≡◌, ◌+◌, ◌-◌, ◌≤◌, drop, length, map, min, take};
ghost use Rattle.outside.specs.Scripts.{Gives, bytes_given, bytes_in, cue_of};

use std::alloc::Global;
use std::collections::VecDeque;
use std::marker::Model;

/// A piece of the script that a stream in memory is read along.
#[derive(Drop)]
pub enum Piece {
    /// Bytes. A read takes as many of them as it has room for, and none of the next piece. A piece without bytes reads
    /// as the end of the stream, once.
    Bytes(Vec<u8>),
    /// The stream is not ready, once.
    Wait,
    /// The read fails, once.
    Fail,
}

/// What a script gives to a reader.
#[derive(Clone, Copy)]
pub enum Next {
    /// So many bytes.
    Bytes(usize),
    /// The stream is not ready.
    Wait,
    /// The read fails.
    Fail,
    /// The script is at its end.
    End,
}

/// A script on its way, of which contracts see what is left.
#[derive(Drop)]
pub struct Script {
    bytes: Vec<u8>,
    read: usize,
    rest: VecDeque<Piece>,
}

impl Model for Script {
    ghost use Rattle.std.specs.Prelude.{List, ◌≤◌, map, drop, vec_len};
    ghost use Rattle.outside.specs.Scripts.{Cue, behind, cue_of};

    ghost Value = { List Cue };

    ghost view = { λ s. behind (drop s.read s.bytes.items) (map cue_of s.rest.items) };

    ghost invariant = { λ s. s.read ≤ vec_len s.bytes };
}

impl Script {
    /// A script of these pieces.
    pub fn new(alloc: Global, pieces: Vec<Piece>) -> Script
        ensures { result ≡ map cue_of pieces.items }
    {
        Script {
            bytes: Vec::new(alloc),
            read: 0,
            rest: VecDeque::from_vec(pieces),
        }
    }

    /// Gives what comes next: bytes into the front of the buffer, at most as many as it has room for.
    pub fn next(&mut self, buffer: &mut [u8]) -> Next
        ensures gives { Gives self.old (length buffer.old) buffer.new result self.new }
        ensures bytes { bytes_given result + bytes_in self.new ≡ bytes_in self.old }
        ensures within { bytes_given result ≤ length buffer.old }
    {
        if self.read < self.bytes.len() {
            return copy(self.bytes.as_slice(), &mut self.read, buffer);
        }
        match self.rest.pop_front() {
            Some(Piece::Bytes(bytes)) => {
                self.bytes = bytes;
                self.read = 0;
                copy(self.bytes.as_slice(), &mut self.read, buffer)
            }
            Some(Piece::Wait) => Next::Wait,
            Some(Piece::Fail) => Next::Fail,
            None => Next::End,
        }
    }
}

/// Copies bytes from this place on into the front of the buffer, as many as there are and it has room for.
fn copy(bytes: &[u8], at: &mut usize, buffer: &mut [u8]) -> Next
    requires { at.old ≤ length bytes.now }
    ensures count { result ≡ Next.Bytes (min (length buffer.old) (length bytes.now - at.old)) }
    ensures at { at.new ≡ at.old + min (length buffer.old) (length bytes.now - at.old) }
    ensures buffer { take (min (length buffer.old) (length bytes.now - at.old)) buffer.new
        ≡ take (min (length buffer.old) (length bytes.now - at.old)) (drop at.old bytes.now) }
{
    let from = *at;
    let count = buffer.len().min(bytes.len() - from);
    buffer[..count].copy_from_slice(&bytes[from..from + count]);
    *at = from + count;
    Next::Bytes(count)
}
