// A script as it is run, line by line, and how it is closed.
ghost use Rattle.std.specs.Prelude.{◌≡◌, true, length, All, IfOk, OnErr, OnOk};
ghost use Rattle.std.specs.List.{slice_get};
ghost use Rattle.book.specs.Books.{WellFormedBook};
ghost use Rattle.commands.specs.Commands.{without_ending, request};
ghost use Rattle.script.specs.Closing.{all_granted};
ghost use Rattle.script.specs.Sessions.{start, Replies, done, used, Passed, Tried, Concludes, held_reply, hold_call_reply, appended, closed, closed_at, next_line, Did, Follows};

use crate::ending::close;
use crate::store::Session;
use book::Book;
use calculus::Step;
use commands::command::{Call, Command, HoldCall, Line, read_line, without_ending};
use commands::words::numbers_after;
use replies::answers::{answer, entered, judge};
use replies::hand::{Held, undergo};
use replies::reply::Reply;
use rules::standard::standard_theory;
use std::alloc::{AllocError, Global};

impl Session {
    pub fn new(alloc: Global) -> Session
        ensures { result ≡ start }
    {
        Session {
            alloc,
            books: Vec::new(alloc),
            current: 0,
            steps: Vec::new(alloc),
            hypotheses: Vec::new(alloc),
            holds: Vec::new(alloc),
            lines: 0,
            understood: true,
        }
    }

    // Every book is well formed, and each hold in hand was granted by one of them, so the answer is always yes; the other clauses are
    // what a caller gets.
    pub fn is_well_formed(&self) -> bool
        ensures answer { result ≡ true }
        ensures books { All WellFormedBook self.now.books }
        ensures granted { all_granted (length self.now.books) self.now.holds ≡ true }
    {
        self.books.iter().all(|b| b.is_well_formed())
    }

    // Whether every line so far was understood.
    pub fn understood(&self) -> bool
        ensures { result ≡ self.now.understood }
    {
        self.understood
    }

    // How many holds were granted so far.
    pub fn holds(&self) -> usize
        ensures { result ≡ length self.now.holds }
    {
        self.holds.len()
    }

    // Begins a book, and makes it the current one.
    fn begin(&mut self, number: u32) -> Result<Reply, AllocError>
        ensures answer { IfOk result (λ reply. reply ≡ Reply.Book number) }
        ensures after { OnOk result (self.new ≡ done self.old (Command.Book number)) }
        ensures refused { OnErr result (self.new ≡ self.old) }
    {
        let book = Book::begin(self.alloc, number, &standard_theory())?;
        let n = self.books.len();
        self.books.push(book)?;
        self.current = n;
        Ok(Reply::Book(number))
    }

    // Makes the k-th book the current one.
    fn choose(&mut self, k: u16) -> Reply
        ensures answer { result ≡ used self.old k }
        ensures after { self.new ≡ done self.old (Command.Use k) }
    {
        let k = usize::from(k);
        let Some(book) = self.books.get(k) else {
            return Reply::NoSuchBook;
        };
        self.current = k;
        Reply::Book(book.number())
    }

    // Passes a call on to the current book. Each call looks it up: a helper that lends it would borrow the whole session.
    fn pass_on(&mut self, call: Call) -> Reply
        ensures answer { Passed self.old call result }
        ensures after { self.new ≡ done self.old (Command.Call call) }
    {
        let Some(book) = self.books.get_mut(self.current) else {
            return Reply::NoSuchBook;
        };
        answer(book, call)
    }

    // Adds a step to the derivation.
    fn add(&mut self, step: Step) -> Result<(), AllocError>
        ensures after { OnOk result (self.new ≡ done self.old (Command.Step step)) }
        ensures refused { OnErr result (self.new ≡ self.old) }
    {
        self.steps.push(step)?;
        Ok(())
    }

    // Judges the derivation in the current book, and begins a new one. The two lists are cleared here and in `conclude`: a method for it
    // would only name two calls.
    fn check(&mut self) -> Reply
        ensures answer { Tried self.old result }
        ensures after { self.new ≡ done self.old Command.Check }
    {
        let Some(book) = self.books.get(self.current) else {
            return Reply::NoSuchBook;
        };
        let reply = judge(book, self.steps.as_slice(), self.hypotheses.as_slice());
        self.steps.clear();
        self.hypotheses.clear();
        reply
    }

    // Holds a rule of the current book. There is room for the hold before it is asked for.
    fn hold(&mut self, e: u16) -> Result<Reply, AllocError>
        ensures answer { IfOk result (λ reply. reply ≡ held_reply self.old e) }
        ensures after { OnOk result (self.new ≡ done self.old (Command.Hold e)) }
        ensures refused { OnErr result (self.new ≡ self.old) }
    {
        self.holds.reserve(1)?;
        let Some(book) = self.books.get_mut(self.current) else {
            return Ok(Reply::NoSuchBook);
        };
        match book.hold(e) {
            Ok(hold) => {
                let n = self.holds.len();
                let granted_by = self.current;
                self.holds.push_reserved(Some(Held { hold, granted_by }));
                Ok(Reply::Hold(n))
            }
            Err(refusal) => Ok(Reply::Refused(refusal.into())),
        }
    }

    // Makes a call on the current book with a hold in hand.
    fn call_with_hold(&mut self, call: HoldCall, h: usize) -> Reply
        ensures answer { result ≡ hold_call_reply self.old call h }
        ensures after { self.new ≡ done self.old (Command.HoldCall call h) }
    {
        let Some(book) = self.books.get_mut(self.current) else {
            return Reply::NoSuchBook;
        };
        match self.holds.get_mut(h) {
            Some(held) => undergo(held, call, book),
            None => Reply::NoSuchHold,
        }
    }

    // Appends numbers to the hypotheses.
    fn append(&mut self, numbers: &[u16]) -> Result<(), AllocError>
        ensures after { OnOk result (self.new ≡ appended self.old numbers.now) }
        ensures refused { OnErr result (self.new ≡ self.old) }
    {
        self.hypotheses.extend_from_slice(numbers)
    }

    // Hands the derivation over to the current book with citations, and begins a new one.
    fn conclude(&mut self, citations: &[u16]) -> Reply
        ensures { Concludes self.old citations.now (slice_get self.old.books self.old.current) result self.new }
    {
        let Some(book) = self.books.get_mut(self.current) else {
            return Reply::NoSuchBook;
        };
        let steps = self.steps.as_slice();
        let hypotheses = self.hypotheses.as_slice();
        let reply = entered(book.conclude(&standard_theory(), steps, hypotheses, citations));
        self.steps.clear();
        self.hypotheses.clear();
        reply
    }

    // Only a new book, a new step and a new hold can want for memory, and nothing is changed then.
    pub fn run(&mut self, command: Command) -> Result<Option<Reply>, AllocError>
        ensures answer { IfOk result (λ reply. Replies self.old command reply) }
        ensures after { OnOk result (self.new ≡ done self.old command) }
        ensures refused { OnErr result (self.new ≡ self.old) }
    {
        // A command is data, which a script writes.
        let reply = match command {
            Command::Book(number) => self.begin(number)?,
            Command::Use(k) => self.choose(k),
            Command::Call(call) => self.pass_on(call),
            Command::Step(step) => {
                self.add(step)?;
                return Ok(None);
            }
            Command::Check => self.check(),
            Command::Hold(e) => self.hold(e)?,
            Command::HoldCall(call, h) => self.call_with_hold(call, usize::from(h)),
        };
        Ok(Some(reply))
    }

    fn next_line(&self) -> u64
        ensures { result ≡ next_line self.now }
    {
        self.lines.saturating_add(1)
    }

    // Does what a line asks, its ending left out. The line is not counted yet.
    fn obey(&mut self, line: &[u8]) -> Result<Option<Reply>, AllocError>
        ensures does { IfOk result (λ reply. Did self.old (request line.now) reply self.new) }
        ensures refused { OnErr result (self.new ≡ self.old) }
    {
        match read_line(line) {
            Line::Silent => Ok(None),
            Line::NotUnderstood => {
                self.understood = false;
                Ok(Some(Reply::NotUnderstood(self.next_line())))
            }
            Line::Asks(command) => self.run(command),
            Line::Hypotheses => {
                let numbers = numbers_after(self.alloc, line)?;
                self.append(numbers.as_slice())?;
                Ok(None)
            }
            Line::Conclude => {
                let citations = numbers_after(self.alloc, line)?;
                Ok(Some(self.conclude(citations.as_slice())))
            }
        }
    }

    // Runs the next line of a script, which is given with its ending if it has one, and answers what is to be printed.
    pub fn line(&mut self, text: &[u8]) -> Result<Option<Reply>, AllocError>
        ensures does { IfOk result (λ reply. Follows self.old (request (without_ending text.now)) reply self.new) }
        ensures refused { OnErr result (self.new ≡ self.old) }
    {
        let number = self.next_line();
        let reply = self.obey(without_ending(text))?;
        self.lines = number;
        Ok(reply)
    }

    // Ends the hold with this number, if it is still in hand: lifted on the book that granted it, or else discarded.
    pub fn close_hold(&mut self, h: usize) -> Option<Reply>
        ensures answer { result ≡ closed self.old h }
        ensures after { self.new ≡ closed_at self.old h }
    {
        let held = self.holds.get_mut(h)?.take();
        close(held, &mut self.books, h)
    }

    // Takes the session apart. Holds still in hand are ended, the last first.
    pub fn end(self) {
        let Session {
            alloc: _,
            mut books,
            current: _,
            steps: _,
            hypotheses: _,
            mut holds,
            lines: _,
            understood: _,
        } = self;
        while let Some(held) = holds.pop() {
            let _ = close(held, &mut books, holds.len());
        }
        holds.destroy_empty();
    }
}
