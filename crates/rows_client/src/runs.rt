//! Runs of the client.
use disk_memory::{Input, MemoryLink, MemorySink};
use host_client::run_client;
use row_files::{bad, line, number_of, parts, words_of};
use std::alloc::{AllocError, Global};
use std::io::{self, Write};
use std::mem;

/// Which calls of a link fail in the next run, the link with this number, and how many bytes the output takes.
#[derive(Clone, Copy)]
pub struct Faults {
    link: u64,
    connect: Option<u64>,
    read: Option<u64>,
    write: Option<u64>,
    room: u64,
}

impl Faults {
    /// Nothing goes wrong.
    pub const NONE: Faults = Faults {
        link: 1,
        connect: None,
        read: None,
        write: None,
        room: u64::MAX,
    };

    /// Lets a call fail, of a device and with a number; a second number is that of the link, by default 1.
    pub fn set(&mut self, text: &str) -> io::Result<()> {
        let (device, numbers) = parts(text);
        let (number, link) = parts(numbers);
        let number = number_of(number)?;
        if !link.is_empty() {
            self.link = number_of(link)?;
        }
        match device {
            "connect" => self.connect = Some(number),
            "read" => self.read = Some(number),
            "write" => self.write = Some(number),
            "output" => self.room = number,
            _ => return Err(bad()),
        }
        Ok(())
    }

    // The link with this number, to a server that answers this in one piece.
    fn link(self, alloc: Global, number: u64, answer: &[u8]) -> Result<MemoryLink, AllocError> {
        let faults = if self.link == number {
            self
        } else {
            Faults::NONE
        };
        let input = Input {
            pieces: vec![in alloc; answer.to_vec(alloc)?]?,
            read_fails: faults.read,
            write_fails: faults.write,
        };
        let mut link = MemoryLink::of_input(alloc, input);
        if let Some(number) = faults.connect {
            link.fail_connect(number);
        }
        Ok(link)
    }
}

/// The client: what its server answers, what goes wrong in its next run, and what the last one sent.
#[derive(Drop)]
pub struct Client {
    /// What the server answers.
    pub answer: Vec<u8>,
    /// What it answers to the further questions of the next run.
    pub further: Vec<Vec<u8>>,
    /// What the last run sent.
    pub sent: Vec<u8>,
    /// What goes wrong in the next run.
    pub faults: Faults,
}

impl Client {
    // The links of the next run, to a server that answers this first, or what it is to answer.
    fn links(
        &mut self,
        alloc: Global,
        answer: Option<&[u8]>,
    ) -> Result<Vec<MemoryLink>, AllocError> {
        let faults = mem::replace(&mut self.faults, Faults::NONE);
        let further = mem::replace(&mut self.further, Vec::new(alloc));
        let first = answer.unwrap_or(&self.answer);
        let mut links = vec![in alloc; faults.link(alloc, 1, first)?]?;
        let mut number = 1u64;
        for answer in &further {
            number = number.saturating_add(1);
            links.push(faults.link(alloc, number, answer)?)?;
        }
        Ok(links)
    }

    /// Runs the client with the words between the bars, over a server that answers this, or what it is to answer. Tells the status, whether anything was sent,
    /// and what was printed.
    pub fn run(&mut self, out: &mut Vec<u8>, text: &str, answer: Option<&[u8]>) -> io::Result<()> {
        let alloc = *out.allocator();
        let words = words_of(alloc, text, '|')?;
        let mut output = MemorySink::fail_from(alloc, self.faults.room);
        let mut links = self.links(alloc, answer)?;
        let status = run_client(alloc, &words, &mut links, &mut output);
        self.sent.clear();
        for link in &links {
            self.sent.extend_from_slice(link.output())?;
        }
        if status != 0 {
            writeln!(out, "[{status}]")?;
        }
        if self.sent.is_empty() {
            line(out, &["nothing sent"])?;
        }
        Ok(out.extend_from_slice(output.written())?)
    }
}
