// Numbers printed one after the other, a space in front of each; equal ones in a row as `v*n`.
ghost use Rattle.std.specs.Prelude.{◌+◌, ◌≤◌, ◌<◌};

use std::{fmt, io};

// Equal numbers in a row that are not printed yet.
#[derive(Clone, Copy)]
struct Run {
    value: u64,
    count: usize,
}

impl fmt::Display for Run {
    fn fmt<W: fmt::Write>(&self, f: &mut fmt::Formatter<W>) -> fmt::Result {
        let value = self.value;
        match self.count {
            0 => Ok(()),
            1 => write!(f, " {value}"),
            count => write!(f, " {value}*{count}"),
        }
    }
}

pub fn print_number<T: Into<u64>>(rt: &impl Print, n: T) -> io::Result<()> {
    let value: u64 = n.into();
    print!(rt; " {value}")
}

// A bar, after which the next buffer is printed.
pub fn print_bar(rt: &impl Print) -> io::Result<()> {
    print!(rt; " |")
}

pub fn print_numbers<T: Into<u64> + Copy>(rt: &impl Print, list: &[T]) -> io::Result<()> {
    let mut run = Run { value: 0, count: 0 };
    for n in list {
        let value: u64 = (*n).into();
        if value != run.value {
            print!(rt; "{run}")?;
            run = Run { value, count: 0 };
        }
        run.count += 1;
    }
    print!(rt; "{run}")
}
