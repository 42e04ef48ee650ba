// The bytes that come in on standard input.
#![tactic(auto)]

ghost use Rattle.std.specs.Prelude.{◌≡◌, ◌≤◌, length};
ghost use Rattle.input.specs.Came.{buffer_size, long_buffer_size, Came};

use std::io::Read;

// A buffer with room for one byte more than a snapshot has, so that a longer file is seen: it fills the buffer.
// (This and the next are two functions: with the size as a parameter a program could ask for a third.)
pub fn buffer() -> [u8; 16407]
    ensures { length result ≡ buffer_size }
{
    [0; 16407]
}

// The same for a snapshot with a log behind it.
pub fn long_buffer() -> [u8; 56411]
    ensures { length result ≡ long_buffer_size }
{
    [0; 56411]
}

// Fills the buffer from its front on, until it is full, the input ends or a read fails. It takes a slice, since a part of an
// array of any length N cannot be lent; and each read brings another count, so that no `for` fits.
fn read_full<R: Read>(reader: &mut R, buffer: &mut [u8]) -> usize
    ensures { result ≤ length buffer.new }
{
    let mut done = 0;
    while done < buffer.len() {
        let n = reader.read(&mut buffer[done..]).unwrap_or(0);
        if n == 0 {
            break;
        }
        done += n;
    }
    done
}

// Reads into the buffer, from its front on, until it is full, the input ends or a read fails. Answers how many bytes came.
// (A count beside the buffer, as `Read::read` does: a slice of it would keep it borrowed, and the contract would have to give it back.
// Two functions, each with its length in the type: with one for any length a program could read a log into the shorter buffer.)
pub fn read<R: Read>(reader: &mut R, buffer: &mut [u8; 16407]) -> usize
    ensures { Came buffer_size result buffer.new }
{
    read_full(reader, buffer)
}

// The same for a snapshot with a log behind it.
pub fn read_with_log<R: Read>(reader: &mut R, longer: &mut [u8; 56411]) -> usize
    ensures { Came long_buffer_size result longer.new }
{
    read_full(reader, longer)
}
