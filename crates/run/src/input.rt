// Reading all of an input, in as many pieces as it comes.
ghost use Rattle.std.specs.Prelude.{◌<◌, IfOk, length, take};
ghost use Rattle.std.specs.Io.KnownBytes.{Consumes, IsAtEnd};
ghost use Rattle.run.specs.Input.{count_of, IsPrefixLen};

use std::io::Read;

// Reads until the input ends, the buffer is full or a read fails, and says how many bytes were read:
// on Err too, where a read failed. They are those that the input gave, in their order; where no read
// failed and the buffer has room left, none is left to read.
pub(crate) fn read_text<R: Read>(input: &mut R, text: &mut [u8]) -> Result<usize, usize>
    ensures within { IsPrefixLen (count_of result) text.new }
    ensures given { Consumes (R.remaining input.old) (R.remaining input.new)
        (take (count_of result) text.new) }
    ensures whole { IfOk result (λ n. n < length text.new → IsAtEnd (R.remaining input.new)) }
{
    let most = text.len();
    let mut done: usize = 0;
    while done < most {
        match input.read(&mut text[done..]) {
            Ok(0) => return Ok(done),
            Ok(bytes) => done += bytes,
            Err(_) => return Err(done),
        }
    }
    Ok(done)
}
