//! A whole file.

ghost use Rattle.std.specs.Prelude.{◌≡◌, ◌≤◌, take, IfErr};
ghost use Rattle.recording.specs.Meaning.{meaning};
ghost use Rattle.recording.specs.Answers.{Answers};

use crate::fault::Fault;
use crate::header::Header;
use crate::reader::Reader;
use graph::{Closed, Open};

/// A file that was read whole.
#[derive(Drop)]
pub struct Recording {
    pub header: Header,
    pub graph: Closed,
}

pub fn read(bytes: &[u8]) -> Result<Recording, Fault>
    ensures what_the_file_means { Answers (meaning bytes.now) result }
    ensures only_the_first_34_850_bytes_matter { meaning bytes.now ≡ meaning (take 34850 bytes.now) }
    ensures a_fault_is_on_one_of_1_025_lines { IfErr result (λ f. f.line ≤ 1025) }
{
    let mut reader = Reader::new(bytes);
    let header = reader.header()?;
    let mut graph = Open::new(header.size);
    reader.fill(&mut graph)?;
    Ok(Recording {
        header,
        graph: graph.close(),
    })
}

#[cfg(test)]
mod tests {
    use super::*;
    use boards::Board;
    use event::Denial;
    use std::test::Fail;

    #[test]
    fn store_buffering(rt: HostRuntime) -> Result<(), Fail> {
        let file = concat!(
            "H   2   2          1          0 4\n",
            "W   1   0                     1 1\n",
            "R   1   1          0            1\n",
            "W   2   1                     1 1\n",
            "R   2   0          0            1\n",
            "L   3   1                        \n",
            "L   5   0                        \n",
            "P   2   0                        \n",
            "P   4   1                        \n",
            "Z                                \n",
        );
        let recording = read(file.as_bytes())?;
        assert_eq!(rt; recording.header.strong, 1);
        assert_eq!(rt; recording.header.model, Board::Sc);
        assert!(rt; recording.graph.graph().events().len() == 6);
        assert!(rt; recording.graph.graph().placed().len() == 4);
        Ok(())
    }

    #[test]
    fn entry_denied_in_its_column(rt: HostRuntime) -> Result<(), Fail> {
        let file = concat!(
            "H   1   1          0          0 0\n",
            "R   1   0          7            6\n",
            "Z                                \n",
        );
        match read(file.as_bytes()) {
            Ok(_) => Err(Fail::new("mode 6 is no mode")),
            Err(fault) => {
                assert_eq!(rt;
                    fault,
                    Fault {
                        line: 2,
                        column: 32,
                        denial: Denial::Mode,
                    }
                );
                Ok(())
            },
        }
    }

    #[test]
    fn empty_file(rt: HostRuntime) -> Result<(), Fail> {
        match read(b"") {
            Ok(_) => Err(Fail::new("no line was read")),
            Err(fault) => {
                assert_eq!(rt;
                    fault,
                    Fault {
                        line: 1,
                        column: 0,
                        denial: Denial::Frame,
                    }
                );
                Ok(())
            },
        }
    }
}
