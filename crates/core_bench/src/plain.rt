//! A player's core of the plainest kind, for comparison: rings of `VecDeque`, properties by a match
//! on their names, observers with the fields that they depend on. It keeps no journal, and nothing
//! is proved of it but that it is safe.
use mc_dispatch::Call;
use mc_packet::CacheView;
use mc_ring::Event;
use mc_value::{Format, NoMemory, Text, Value};
use std::alloc::Global;
use std::collections::VecDeque;

// The fields that a property may depend on.
const PAUSE: u32 = 1;

const MUTE: u32 = 2;

const CACHE: u32 = 4;

#[derive(Drop)]
struct Observer {
    id: u64,
    name: Text,
    format: Format,
    fields: u32,
    flagged: bool,
    given: Option<Value>,
}

#[derive(Drop)]
struct Client {
    events: VecDeque<Event>,
    size: usize,
    reserved: usize,
    observers: Vec<Observer>,
}

#[derive(Drop)]
struct Asked {
    client: usize,
    call: Call,
}

/// A core with clients, their requests, and what the player knows of itself.
#[derive(Drop)]
pub struct Plain {
    alloc: Global,
    clients: Vec<Client>,
    queue: VecDeque<Asked>,
    pause: bool,
    mute: bool,
    view: CacheView,
}

fn fields_of(name: &str) -> u32 {
    match name {
        "pause" => PAUSE,
        "mute" => MUTE,
        "eof-reached" | "time-pos" => CACHE,
        _ => 0,
    }
}

fn same(given: &Option<Value>, value: &Value) -> bool {
    match given {
        Some(last) => last.equals(value),
        None => false,
    }
}

// The change that an observer is to be told, if what it has is another value than it was given.
fn change(alloc: Global, observer: &mut Observer, value: Value) -> Result<Option<Event>, NoMemory> {
    observer.flagged = false;
    if same(&observer.given, &value) {
        return Ok(None);
    }
    let event = Event::Change {
        id: observer.id,
        name: observer.name.copy()?,
        format: observer.format,
        value: value.copy(alloc)?,
    };
    observer.given = Some(value);
    Ok(Some(event))
}

impl Plain {
    /// A core in which nothing has happened, with a view of its cache.
    pub fn new(alloc: Global, view: CacheView) -> Plain {
        Plain {
            alloc,
            clients: Vec::new(alloc),
            queue: VecDeque::new(alloc),
            pause: false,
            mute: false,
            view,
        }
    }

    /// A client comes, with room for so many events. It answers the client's place.
    pub fn create_client(&mut self, size: usize) -> Result<usize, NoMemory> {
        let place = self.clients.len();
        self.clients.push(Client {
            events: VecDeque::with_capacity(self.alloc, size)?,
            size,
            reserved: 0,
            observers: Vec::new(self.alloc),
        })?;
        Ok(place)
    }

    /// A client observes a property.
    pub fn observe(
        &mut self,
        at: usize,
        id: u64,
        name: Text,
        format: Format,
    ) -> Result<(), NoMemory> {
        if let Some(client) = self.clients.get_mut(at) {
            let fields = fields_of(name.as_str());
            client.observers.push(Observer {
                id,
                name,
                format,
                fields,
                flagged: true,
                given: None,
            })?;
        }
        Ok(())
    }

    /// A request waits, unless its client's ring has no place for the reply.
    pub fn ask(&mut self, at: usize, call: Call) -> Result<bool, NoMemory> {
        let Some(client) = self.clients.get_mut(at) else {
            return Ok(false);
        };
        if client.size <= client.reserved || client.size - client.reserved <= client.events.len() {
            return Ok(false);
        }
        self.queue.push_back(Asked { client: at, call })?;
        client.reserved = client.reserved.saturating_add(1);
        Ok(true)
    }

    fn flag(&mut self, fields: u32) {
        for client in &mut self.clients {
            for observer in &mut client.observers {
                if observer.fields & fields != 0 {
                    observer.flagged = true;
                }
            }
        }
    }

    fn value_of(&self, name: &str) -> Value {
        match name {
            "pause" => Value::Flag(self.pause),
            "mute" => Value::Flag(self.mute),
            "eof-reached" => Value::Flag(self.view.ended),
            _ => Value::None,
        }
    }

    fn set(&mut self, name: &str, value: &Value) -> i32 {
        match (name, value) {
            ("pause", Value::Flag(on)) => {
                self.pause = *on;
                self.flag(PAUSE);
                0
            }
            ("mute", Value::Flag(on)) => {
                self.mute = *on;
                self.flag(MUTE);
                0
            }
            _ => -8,
        }
    }

    fn reply(&mut self, at: usize, event: Event) -> Result<(), NoMemory> {
        if let Some(client) = self.clients.get_mut(at) {
            client.reserved = client.reserved.saturating_sub(1);
            client.events.push_back(event)?;
        }
        Ok(())
    }

    fn answer(&mut self, call: &Call) -> Event {
        match call {
            Call::Set { id, name, value } => {
                let id = *id;
                let error = self.set(name.as_str(), value);
                Event::SetReply { id, error }
            }
            Call::Get { id, name, .. } => {
                let id = *id;
                let value = self.value_of(name.as_str());
                let error = 0;
                Event::GetReply { id, error, value }
            }
            _ => Event::None,
        }
    }

    /// Works the oldest request, if one waits.
    pub fn work(&mut self) -> Result<bool, NoMemory> {
        let Some(asked) = self.queue.pop_front() else {
            return Ok(false);
        };
        let event = self.answer(&asked.call);
        self.reply(asked.client, event)?;
        Ok(true)
    }

    /// The cache tells of itself: observers of it may have news.
    pub fn learn(&mut self, view: CacheView) {
        self.view = view;
        self.flag(CACHE);
    }

    fn flagged_at(&self, at: usize, i: usize) -> Option<Value> {
        let observer = self.clients.get(at)?.observers.get(i)?;
        if observer.flagged {
            Some(self.value_of(observer.name.as_str()))
        } else {
            None
        }
    }

    fn changed_at(&mut self, at: usize, i: usize) -> Result<Option<Event>, NoMemory> {
        let Some(value) = self.flagged_at(at, i) else {
            return Ok(None);
        };
        let alloc = self.alloc;
        match self.clients.get_mut(at) {
            Some(client) => match client.observers.get_mut(i) {
                Some(observer) => change(alloc, observer, value),
                None => Ok(None),
            },
            None => Ok(None),
        }
    }

    fn observers(&self, at: usize) -> usize {
        match self.clients.get(at) {
            Some(client) => client.observers.len(),
            None => 0,
        }
    }

    /// A client's next event: the oldest of its ring, else an observer's change.
    pub fn poll(&mut self, at: usize) -> Result<Event, NoMemory> {
        if let Some(client) = self.clients.get_mut(at) {
            if let Some(event) = client.events.pop_front() {
                return Ok(event);
            }
        }
        for i in 0..self.observers(at) {
            if let Some(event) = self.changed_at(at, i)? {
                return Ok(event);
            }
        }
        Ok(Event::None)
    }
}
