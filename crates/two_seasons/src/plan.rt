// The text of a season: notebooks, copies of them in other numberings, and the calls, a line each.
//
//     book NAME                       begins a notebook
//     station KIND                    one station more, by the word of its kind
//     plain COUNT                     so many plain stations more
//     leg FROM TO LABEL..             one leg more
//     copy NAME OF STEP SHIFT         a notebook as another party wrote it: station u is step * u + shift, counted
//                                     around, and each second leg is read from its far end
//     enter LAYER NAME ALLOWANCE      a call; the layer is as-read, both-ways, turned, table (of grades), or without-U:
//     find LAYER NAME ALLOWANCE       both ways and without station U
use crate::mistake::{Mistake, Wrong};
use crate::notebook::{Notebook, Numbering};
use crate::written::{Written, number};
use atlas::request::Ask;
use std::alloc::Global;
use std::str::FromStr;

// How the network of a call is read from a notebook. An enum and no closure, since each layer makes a network of another
// type.
#[derive(Clone, Copy)]
pub enum Layer {
    AsRead,
    BothWays,
    Turned,
    Table,
    Without { station: u32 },
}

// What a planned call asks, and of which notebook.
#[derive(Clone, Copy)]
pub struct Asked {
    pub ask: Ask,
    pub layer: Layer,
    pub book: usize,
    pub allowance: u32,
}

// A call as it is planned, with its line.
#[derive(Drop)]
pub struct Call {
    pub text: String,
    pub asked: Asked,
}

// A notebook under its name.
#[derive(Drop)]
pub struct Book<L> {
    name: String,
    pub notebook: Notebook<L>,
}

#[derive(Drop)]
pub struct Plan<L> {
    books: Vec<Book<L>>,
    calls: Vec<Call>,
}

impl FromStr for Layer {
    type Err = Wrong;

    fn from_str(word: &str) -> Result<Layer, Wrong> {
        match word {
            "as-read" => Ok(Layer::AsRead),
            "both-ways" => Ok(Layer::BothWays),
            "turned" => Ok(Layer::Turned),
            "table" => Ok(Layer::Table),
            _ => {
                let station = word.strip_prefix("without-").ok_or(Wrong::NotALine)?;
                Ok(Layer::Without {
                    station: number(station)?,
                })
            }
        }
    }
}

impl<L: Written + Drop> Plan<L> {
    // Reads the text of a season.
    pub fn read(heap: Global, text: &str) -> Result<Plan<L>, Mistake> {
        let mut plan = Plan {
            books: Vec::new(heap),
            calls: Vec::new(heap),
        };
        for (at, text) in text.lines().enumerate() {
            plan.read_line(heap, text)
                .map_err(|wrong| wrong.at(at.saturating_add(1)))?;
        }
        Ok(plan)
    }

    fn read_line(&mut self, heap: Global, text: &str) -> Result<(), Wrong> {
        let words: Vec<&str> = text.split_whitespace().collect(heap)?;
        match words.as_slice() {
            [] => Ok(()),
            ["book", name] => self.add_book(heap, name, Notebook::new(heap)),
            ["copy", name, of, step, shift] => {
                let of = self.book_named(of)?;
                let numbering = Numbering {
                    step: number(step)?,
                    shift: number(shift)?,
                };
                self.add_copy(heap, name, of, numbering)
            }
            ["enter", word, name, allowance] => {
                let call = self.call(Ask::Enter, word, name, allowance)?;
                self.add_call(heap, text, call)
            }
            ["find", word, name, allowance] => {
                let call = self.call(Ask::Find, word, name, allowance)?;
                self.add_call(heap, text, call)
            }
            words => self.add_to_book(words),
        }
    }

    // A line of the notebook that was begun last.
    fn add_to_book(&mut self, words: &[&str]) -> Result<(), Wrong> {
        let book = &mut self.books.last_mut().ok_or(Wrong::NotALine)?.notebook;
        match words {
            ["station", kind] => book.add_station(kind),
            ["plain", count] => book.add_plain(number(count)?),
            ["leg", from, to, label @ ..] => book.add_leg(from, to, label),
            _ => Err(Wrong::NotALine),
        }
    }

    fn add_book(&mut self, heap: Global, name: &str, notebook: Notebook<L>) -> Result<(), Wrong> {
        let name = String::from_str(heap, name)?;
        self.books.push(Book { name, notebook })?;
        Ok(())
    }

    fn add_copy(
        &mut self,
        heap: Global,
        name: &str,
        of: usize,
        numbering: Numbering,
    ) -> Result<(), Wrong> {
        let copy = match self.books.get(of) {
            Some(book) => book.notebook.copied(heap, numbering)?,
            None => Notebook::new(heap),
        };
        self.add_book(heap, name, copy)
    }

    fn call(&self, ask: Ask, layer: &str, name: &str, allowance: &str) -> Result<Asked, Wrong> {
        Ok(Asked {
            ask,
            layer: layer.parse()?,
            book: self.book_named(name)?,
            allowance: number(allowance)?,
        })
    }

    fn add_call(&mut self, heap: Global, text: &str, asked: Asked) -> Result<(), Wrong> {
        let text = String::from_str(heap, text)?;
        self.calls.push(Call { text, asked })?;
        Ok(())
    }

    fn book_named(&self, name: &str) -> Result<usize, Wrong> {
        self.books
            .iter()
            .position(|book| book.name.as_str() == name)
            .ok_or(Wrong::NoSuchBook)
    }

    pub fn books(&self) -> &[Book<L>] {
        &self.books
    }

    pub fn calls(&self) -> &[Call] {
        &self.calls
    }
}
