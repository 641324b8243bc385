//! For `bench/leb128.sh`: writes and reads so many numbers in LEB128 so many times, and prints their bytes, and the shortest times of writing
//! and of reading them.

use crate::shortest::tell_shortest;
use std::rt::Clock;
use wasm_core::binary_reader::BinaryReader;
use wasm_core::leb128::{write_s64, write_u32};

/// Measures numbers of the kind and form that the words say.
pub(crate) fn measure<R: Print + Clock + AllocGlobal>(rt: &R, words: &[String]) -> Option<()> {
    let [kind, form, count, times] = words else {
        return None;
    };
    let form = match form.as_str() {
        "short" => Form::Short,
        "long" => Form::Long,
        _ => return None,
    };
    let count = count.as_str().parse::<u32>().ok()?;
    let times = times.as_str().parse::<u32>().ok()?;
    match kind.as_str() {
        "u32" => tell::<R, u32>(rt, form, count, times),
        "s64" => tell::<R, i64>(rt, form, count, times),
        _ => None,
    }
}

// Numbers of one byte, or of any length.
#[derive(Clone, Copy)]
enum Form {
    Short,
    Long,
}

// A kind of numbers.
trait Number: Copy {
    // Makes a number of this form of random bits.
    fn drawn(bits: u64, form: Form) -> Self;

    fn write(self, sink: &mut Vec<u8>) -> Option<()>;

    fn read(reader: &mut BinaryReader<'_>) -> Option<Self>;

    // Returns this as bits, for a sum.
    fn bits(self) -> u64;
}

impl Number for u32 {
    fn drawn(bits: u64, form: Form) -> u32 {
        match form {
            Form::Short => (bits >> 58) as u32,
            Form::Long => (bits >> 32) as u32,
        }
    }

    fn write(self, sink: &mut Vec<u8>) -> Option<()> {
        write_u32(sink, self).ok()
    }

    fn read(reader: &mut BinaryReader<'_>) -> Option<u32> {
        reader.read_var_u32().ok()
    }

    fn bits(self) -> u64 {
        u64::from(self)
    }
}

impl Number for i64 {
    fn drawn(bits: u64, form: Form) -> i64 {
        match form {
            Form::Short => bits.cast_signed() >> 57,
            Form::Long => bits.cast_signed(),
        }
    }

    fn write(self, sink: &mut Vec<u8>) -> Option<()> {
        write_s64(sink, self).ok()
    }

    fn read(reader: &mut BinaryReader<'_>) -> Option<i64> {
        reader.read_var_i64().ok()
    }

    fn bits(self) -> u64 {
        self.cast_unsigned()
    }
}

// Draws the numbers, and times writing and reading them.
fn tell<R: Print + Clock + AllocGlobal, N: Number>(
    rt: &R,
    form: Form,
    count: u32,
    times: u32,
) -> Option<()> {
    let mut numbers = Vec::new(rt.alloc());
    draw::<N>(&mut numbers, form, count)?;
    let mut bytes = Vec::new(rt.alloc());
    write_all(&mut bytes, numbers.as_slice())?;
    println!(rt; "{} bytes", bytes.len()).ok()?;
    let sum = sum_of(numbers.as_slice());
    tell_shortest(rt, times, || write_all(&mut bytes, numbers.as_slice()))?;
    tell_shortest(rt, times, || read_all::<N>(&bytes, count, sum))
}

// Adds so many numbers, each from the upper bits of the next state of a generator.
fn draw<N: Number>(numbers: &mut Vec<N>, form: Form, count: u32) -> Option<()> {
    let mut state = 7u64;
    for _ in 0..count {
        state = state
            .wrapping_mul(6364136223846793005)
            .wrapping_add(1442695040888963407);
        numbers.push(N::drawn(state, form)).ok()?;
    }
    Some(())
}

// Clears the sink and writes the numbers to it.
fn write_all<N: Number>(sink: &mut Vec<u8>, numbers: &[N]) -> Option<()> {
    sink.clear();
    for number in numbers {
        number.write(sink)?;
    }
    Some(())
}

// Reads so many numbers, which must have this sum.
fn read_all<N: Number>(bytes: &[u8], count: u32, sum: u64) -> Option<()> {
    let mut reader = BinaryReader::new(bytes, 0);
    let mut found = 0u64;
    for _ in 0..count {
        found = found.wrapping_add(N::read(&mut reader)?.bits());
    }
    if found == sum { Some(()) } else { None }
}

fn sum_of<N: Number>(numbers: &[N]) -> u64 {
    let mut sum = 0u64;
    for number in numbers {
        sum = sum.wrapping_add(number.bits());
    }
    sum
}
