//! A link over TCP whose failures are told.
ghost use Rattle.std.specs.Prelude.{◌≡◌, IfOk};
ghost use Rattle.feed_links.specs.Links.{tcp_link};

use crate::reply::{NoReply, is_reply};
use error_lines::Rate;
use feed_links::TcpLink;
use news_io::{Failed, Link};
use news_types::{Memory, Name};
use std::alloc::Global;
use std::fmt::Display;
use std::net::{Net, TcpStream};
use std::time::Clock;

/// A link to receivers over TCP, each failure of which is told on standard error, and what came in place of a reply, at most once a
/// minute for each subscriber. It means what it is made of.
#[derive(Drop)]
pub struct SpokenLink<R> {
    pub inner: TcpLink<R>,
    rt: R,
    /// One for each name of the link, in their order.
    rates: Vec<Rate>,
}

impl<R: Net<Stream = TcpStream> + Clock + Eprint + Drop> SpokenLink<R> {
    /// This link.
    pub fn new(alloc: Global, inner: TcpLink<R>, rt: R) -> Result<SpokenLink<R>, Memory>
        ensures { IfOk result (λ link. link.inner ≡ inner) }
    {
        let mut rates = Vec::with_capacity(alloc, inner.names().len())?;
        for _ in inner.names().iter() {
            rates.push(Rate::new())?;
        }
        Ok(SpokenLink { inner, rt, rates })
    }
}

impl<R: Net<Stream = TcpStream> + Clock + Eprint> SpokenLink<R> {
    /// Tells that a call for a subscriber failed, if it did, and why.
    fn told<T>(&mut self, subscriber: &Name, done: Result<T, Failed>) -> Result<T, Failed>
        ensures value { result ≡ done }
        ensures inner { self.new.inner ≡ self.old.inner }
    {
        if done.is_err() {
            self.tell(subscriber);
        }
        done
    }

    /// Tells why the last call failed, which was for this subscriber.
    fn tell(&mut self, subscriber: &Name)
        ensures { self.new.inner ≡ self.old.inner }
    {
        if let Some(error) = self.inner.last_error() {
            self.tell_why(subscriber, &error);
        }
    }

    /// Tells what came in place of a reply of this subscriber, where it is none.
    fn tell_reply(&mut self, subscriber: &Name, bytes: &[u8])
        ensures { self.new.inner ≡ self.old.inner }
    {
        if !is_reply(subscriber, bytes) {
            self.tell_why(subscriber, &NoReply { bytes });
        }
    }

    fn tell_why<D: Display>(&mut self, subscriber: &Name, why: &D)
        ensures { self.new.inner ≡ self.old.inner }
    {
        let place = self
            .inner
            .names()
            .iter()
            .position(|name| *name == *subscriber);
        let Some(place) = place else {
            return;
        };
        if let Some(rate) = self.rates.get_mut(place) {
            rate.tell(&self.rt, "link", subscriber.as_str(), why);
        }
    }
}

impl<R: Net<Stream = TcpStream> + Clock + Eprint> Link for SpokenLink<R> {
    ghost use Rattle.spoken_devices.specs.Meanings.{spoken_link};

    ghost link = { spoken_link };

    fn names(&self) -> &[Name] {
        self.inner.names()
    }

    fn send(&mut self, subscriber: &Name, frame: &[u8]) -> Result<(), Failed> {
        let done = self.inner.send(subscriber, frame);
        self.told(subscriber, done)
    }

    fn receipt(&mut self, subscriber: &Name, into: &mut [u8; 128]) -> Result<usize, Failed> {
        let done = self.inner.receipt(subscriber, into);
        if let Ok(length) = done {
            self.tell_reply(subscriber, &into[..length]);
        }
        self.told(subscriber, done)
    }
}
