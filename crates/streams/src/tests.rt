// Streams that fail in the middle: each answer is a fake stream's.
ghost use Rattle.std.specs.Prelude.{◌≤◌, IfOk};

use super::*;

// A stream that answers a call by the next of its answers: so many bytes, or a failure.
#[derive(Drop)]
struct Faulty {
    answers: [io::Result<usize>; 4],
    calls: usize,
}

impl Faulty {
    fn answer(&mut self, most: usize) -> io::Result<usize>
        ensures { IfOk result (λ n. n ≤ most) }
    {
        if self.calls >= 4 {
            return Ok(0);
        }
        let answer = self.answers[self.calls];
        self.calls += 1;
        match answer {
            Ok(count) => Ok(count.min(most)),
            Err(error) => Err(error),
        }
    }
}

impl Read for Faulty {
    fn read(&mut self, buf: &mut [u8]) -> io::Result<usize> {
        let count = self.answer(buf.len())?;
        buf[..count].fill(b'a');
        Ok(count)
    }
}

impl Write for Faulty {
    fn write(&mut self, buf: &[u8]) -> io::Result<usize> {
        self.answer(buf.len())
    }

    fn flush(&mut self) -> io::Result<()> {
        Ok(())
    }
}

fn interrupted() -> io::Result<usize> {
    Err(io::Error::from_raw_os_error(4))
}

fn blocked() -> io::Result<usize> {
    Err(io::Error::from_raw_os_error(11))
}

fn broken() -> io::Result<usize> {
    Err(io::Error::from_raw_os_error(5))
}

fn answering(answers: [io::Result<usize>; 4]) -> Faulty {
    Faulty { answers, calls: 0 }
}

#[test]
fn tries_again_and_reads_to_the_end(rt: HostRuntime) {
    let mut input = answering([Ok(2), interrupted(), blocked(), Ok(1)]);
    let mut told = [0u8; 64];
    let mut room = [0u8; 8];
    let reached = read_input(&mut input, &mut &mut told[..], &mut room, b"no input");
    assert_eq!(rt; reached, Ok(3));
    assert_eq!(rt; &room, b"aaa\0\0\0\0\0");
    assert_eq!(rt; told[0], 0);
}

#[test]
fn tells_a_read_that_fails(rt: HostRuntime) {
    let mut input = answering([Ok(2), broken(), Ok(1), Ok(0)]);
    let mut told = [0u8; 29];
    let mut room = [0u8; 8];
    let reached = read_input(&mut input, &mut &mut told[..], &mut room, b"no input");
    assert_eq!(rt; reached, Err(Stopped { size: 2 }));
    assert_eq!(rt; &told, b"no input: Input/output error\n");
}

#[test]
fn tells_a_write_that_takes_nothing(rt: HostRuntime) {
    let mut output = answering([Ok(2), interrupted(), blocked(), Ok(0)]);
    let mut told = [0u8; 29];
    let sent = write_text(&mut output, &mut &mut told[..], b"text", b"no output");
    assert_eq!(rt; sent, Err(Stopped { size: 2 }));
    assert_eq!(rt; &told, b"no output: no byte is taken\n\0");
}
