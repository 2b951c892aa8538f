//! A door over TCP.
ghost use Rattle.std.specs.Prelude.{◌≡◌};

use crate::door::Door;
use crate::hall::Hall;
use crate::tcp_sink::TcpSink;
use crate::tcp_source::TcpSource;
use error_lines::tell;
use news_io::{Failed, Faults};
use news_types::Text;
use std::alloc::Global;
use std::io;
use std::net::{Net, TcpListener, TcpStream};
use std::time::{Clock, Duration};

/// How long a request may take from its first byte to its last, and a response, in seconds.
const PATIENCE: u64 = 60;

/// A door that listens at an address, from its first call on. It tells nothing of its connections.
///
/// That it listens, or why it does not, it tells on standard error.
///
/// It holds at most 64 of them, and reads them beside each other: one is given when a request of it is whole, and has the key
/// where one is asked for. It is taken back behind the answer, and held on until the next request is whole, unless it has ended. One that fails or runs out of its time
/// the door closes by itself, and tells how many these were, once a minute.
#[derive(Drop)]
pub struct TcpDoor<R> {
    alloc: Global,
    rt: R,
    address: Text,
    /// How long a request or a response may take, from the first call on.
    pub(crate) patience: Duration,
    /// What each request has to have as its key, where one is asked for.
    key: Option<Text>,
    hall: Option<Hall>,
    faults: Faults,
}

impl<R: Drop> TcpDoor<R> {
    ghost use Rattle.server_doors.specs.Devices.{tcp_door};

    /// A door at an address: a host and a port, as `127.0.0.1:8080`.
    pub fn new(alloc: Global, rt: R, address: Text) -> TcpDoor<R>
        ensures { tcp_door.faults result ≡ 0 }
    {
        TcpDoor {
            alloc,
            rt,
            address,
            patience: Duration::from_secs(PATIENCE),
            key: None,
            hall: None,
            faults: Faults::none(),
        }
    }

    /// This door, which asks each request for this key, if there is one: the value of the one `X-Key` of its head. A request
    /// without it is answered 403, and ends its connection.
    pub fn with_key(mut self, key: Option<Text>) -> TcpDoor<R>
        ensures { tcp_door.faults result ≡ tcp_door.faults self }
    {
        self.key = key;
        self
    }

    /// How many of its calls failed.
    pub fn fault_count(&self) -> u64
        ensures { result ≡ tcp_door.faults self.now }
    {
        self.faults.count()
    }
}

impl<R: Net<Listener = TcpListener, Stream = TcpStream> + Clock + Eprint> TcpDoor<R> {
    /// Listens, and tells so on standard error, or why not.
    fn open(&self) -> io::Result<Hall> {
        let address = self.address.as_str();
        match Hall::open(&self.rt, self.alloc, address, self.patience) {
            Ok(hall) => {
                tell(&self.rt, "listening at", address, &"ready");
                Ok(hall)
            }
            Err(error) => {
                tell(&self.rt, "listening at", address, &error);
                Err(error)
            }
        }
    }

    /// The next connection whose request is whole, behind the first call's listening.
    fn next(&mut self) -> io::Result<(TcpSource, TcpSink)>
        ensures { self.new.faults ≡ self.old.faults }
    {
        let mut hall = match self.hall.take() {
            Some(hall) => hall,
            None => self.open()?,
        };
        let key = match &self.key {
            Some(key) => Some(key.as_str().as_bytes()),
            None => None,
        };
        let given = hall.next(&self.rt, key);
        self.hall = Some(hall);
        given
    }
}

impl<R: Net<Listener = TcpListener, Stream = TcpStream> + Clock + Eprint> Door for TcpDoor<R> {
    ghost use Rattle.server_doors.specs.Devices.{tcp_door};

    type In = TcpSource;

    type Out = TcpSink;

    ghost door = { tcp_door };

    fn accept(&mut self) -> Result<(TcpSource, TcpSink), Failed> {
        let accepted = self.next();
        self.faults.counted(accepted)
    }

    fn give_back(&mut self, input: TcpSource, output: TcpSink) {
        if let Some(hall) = &mut self.hall {
            hall.take_back(input, output);
        }
    }
}
