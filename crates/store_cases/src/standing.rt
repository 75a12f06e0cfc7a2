//! A store, and what it is asked in words.
use crate::words::{
    document_of, id_of, namespace_of, tag_of, time_of, value_in, words_of_conflict, words_of_held,
    words_of_holder, words_of_id, words_of_namespace,
};
use bson_core::Doc;
use std::alloc::{AllocError, Global};
use txn_types::{Id, Tag, Ts, Write};
use version_store::{PutErr, ScanErr, Store};

#[derive(Drop)]
pub struct Standing {
    store: Store,
}

/// The words of a question; an empty one after the last.
#[derive(Clone, Copy)]
struct Asked<'a> {
    words: &'a [&'a str],
}

impl<'a> Asked<'a> {
    fn word(&self, index: usize) -> &'a str {
        match self.words.get(index) {
            Some(word) => *word,
            None => "",
        }
    }

    /// The transaction, which comes second.
    fn tag(&self) -> Tag {
        tag_of(self.word(1))
    }

    /// The time, which comes after `at`.
    fn time(&self) -> Ts {
        time_of(self.word(3))
    }
}

/// What a write is answered.
fn words_of_put(alloc: Global, answer: &Result<(), (PutErr, Write)>) -> Result<String, AllocError> {
    match answer {
        Ok(()) => String::from_str(alloc, "ok"),
        Err((PutErr::Conflict { id, by }, _)) => words_of_conflict(alloc, id, *by),
        Err((PutErr::Memory, _)) => String::from_str(alloc, "no memory"),
    }
}

/// Rows, each `ID = VALUE`.
fn words_of_rows(alloc: Global, rows: &[(Id, Doc)]) -> Result<String, AllocError> {
    if rows.is_empty() {
        return String::from_str(alloc, "nothing");
    }
    let mut text = String::new(alloc);
    for (id, doc) in rows {
        if !text.is_empty() {
            text.push_str(", ")?;
        }
        let id = words_of_id(alloc, id)?;
        write!(text, "{id} = {}", value_in(doc))?;
    }
    Ok(text)
}

impl Standing {
    pub fn new(alloc: Global) -> Standing {
        Standing {
            store: Store::new(alloc),
        }
    }

    /// What is answered to a question.
    pub fn answer(&mut self, alloc: Global, question: &str) -> Result<String, AllocError> {
        let words: Vec<&str> = question.split_whitespace().collect(alloc)?;
        let asked = Asked {
            words: words.as_slice(),
        };
        match asked.word(0) {
            "put" => self.put(alloc, &asked),
            "delete" => self.delete(alloc, &asked),
            "against" => self.against(alloc, &asked),
            "read" => self.read(alloc, &asked),
            "scan" => self.scan(alloc, &asked),
            "newest" => self.newest(alloc, &asked),
            "keys" => self.keys(alloc, &asked),
            "prepare" => self.prepare(alloc, &asked),
            "commit" => self.decide(alloc, asked.tag(), Some(asked.time())),
            "abort" => self.decide(alloc, asked.tag(), None),
            "drop" => self.drop_txn(alloc, &asked),
            _ => String::from_str(alloc, "no question"),
        }
    }

    fn put(&mut self, alloc: Global, asked: &Asked) -> Result<String, AllocError> {
        let doc = document_of(alloc, asked.word(5), asked.word(7))?;
        let Some(id) = Id::in_doc(alloc, &doc)? else {
            return String::from_str(alloc, "no id");
        };
        let write = Write::Put {
            ns: namespace_of(alloc, asked.word(4))?,
            id,
            doc,
        };
        let answer = self.store.put(asked.tag(), asked.time(), write);
        words_of_put(alloc, &answer)
    }

    fn delete(&mut self, alloc: Global, asked: &Asked) -> Result<String, AllocError> {
        let write = Write::Delete {
            ns: namespace_of(alloc, asked.word(4))?,
            id: id_of(alloc, asked.word(5))?,
        };
        let answer = self.store.put(asked.tag(), asked.time(), write);
        words_of_put(alloc, &answer)
    }

    fn against(&self, alloc: Global, asked: &Asked) -> Result<String, AllocError> {
        let ns = namespace_of(alloc, asked.word(4))?;
        let id = id_of(alloc, asked.word(5))?;
        match self.store.against(&ns, &id, asked.time(), asked.tag()) {
            Some(by) => words_of_conflict(alloc, &id, by),
            None => String::from_str(alloc, "nothing"),
        }
    }

    fn read(&self, alloc: Global, asked: &Asked) -> Result<String, AllocError> {
        let ns = namespace_of(alloc, asked.word(4))?;
        let id = id_of(alloc, asked.word(5))?;
        match self.store.read(&ns, &id, asked.time(), asked.tag()) {
            Ok(Some(doc)) => format!(in alloc; "{}", value_in(doc)),
            Ok(None) => String::from_str(alloc, "nothing"),
            Err((tag, ts)) => words_of_holder(alloc, tag, ts),
        }
    }

    fn scan(&self, alloc: Global, asked: &Asked) -> Result<String, AllocError> {
        let ns = namespace_of(alloc, asked.word(4))?;
        let mut ids = Vec::new(alloc);
        for word in asked.words.iter().skip(6) {
            ids.push(id_of(alloc, word)?)?;
        }
        let touched = if asked.word(5) == "of" {
            Some(ids.as_slice())
        } else {
            None
        };
        match self.store.scan(&ns, touched, asked.time(), asked.tag()) {
            Ok(rows) => words_of_rows(alloc, rows.as_slice()),
            Err(ScanErr::Held(held)) => words_of_held(alloc, &held),
            Err(ScanErr::Memory) => Err(AllocError),
        }
    }

    fn newest(&self, alloc: Global, asked: &Asked) -> Result<String, AllocError> {
        let ns = namespace_of(alloc, asked.word(1))?;
        let id = id_of(alloc, asked.word(2))?;
        match self.store.newest(&ns, &id) {
            Some(at) => format!(in alloc; "{}", at.0),
            None => String::from_str(alloc, "none"),
        }
    }

    fn keys(&self, alloc: Global, asked: &Asked) -> Result<String, AllocError> {
        let keys = self.store.keys(asked.tag())?;
        if keys.is_empty() {
            return String::from_str(alloc, "none");
        }
        let mut text = String::new(alloc);
        for key in keys.as_slice() {
            if !text.is_empty() {
                text.push_str(", ")?;
            }
            let ns = words_of_namespace(alloc, key.ns())?;
            let id = words_of_id(alloc, key.id())?;
            write!(text, "{ns} {id}")?;
        }
        Ok(text)
    }

    fn prepare(&mut self, alloc: Global, asked: &Asked) -> Result<String, AllocError> {
        let tag = asked.tag();
        let keys = self.store.keys(tag)?;
        self.store.prepare(tag, keys.as_slice(), asked.time());
        String::from_str(alloc, "ok")
    }

    fn decide(&mut self, alloc: Global, tag: Tag, at: Option<Ts>) -> Result<String, AllocError> {
        let keys = self.store.keys(tag)?;
        self.store.decide(tag, keys.as_slice(), at);
        String::from_str(alloc, "ok")
    }

    fn drop_txn(&mut self, alloc: Global, asked: &Asked) -> Result<String, AllocError> {
        let tag = asked.tag();
        let keys = self.store.keys(tag)?;
        self.store.drop_txn(tag, keys.as_slice());
        String::from_str(alloc, "ok")
    }
}
