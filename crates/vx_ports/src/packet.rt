//! Packets: the units in which an exchange passes rows on (Graefe's packets).

ghost use Rattle.vx_rows_values.specs.Limits.{max_packet_rows};

use std::marker::Model;
use vx_rows_values::ColType;
use vx_rows_views::Rows;

/// What a packet is: rows, or one of the two ends of a stream.
#[derive(Clone, Copy, PartialEq, Eq)]
pub enum PacketKind {
    Rows,
    Last,
    Fault,
}

/// The two ends of a producer's stream.
#[derive(Clone, Copy, PartialEq, Eq)]
pub enum StreamEnd {
    /// All rows were sent.
    Last,
    /// The producer failed: what was sent is cut short.
    Fault,
}

/// What a packet brings.
#[derive(Drop)]
pub enum Body {
    /// 1 to 4,096 rows.
    Rows(Rows),
    /// No row: the stream is over.
    End(StreamEnd),
}

/// Rows, or the end of a stream, from a producer to a consumer of an exchange. A closing packet holds no rows, but their types.
pub struct Packet {
    exchange: u32,
    from: u32,
    to: u32,
    kind: PacketKind,
    rows: Rows,
}

impl Drop for Packet {
    fn drop(self) {
        let Packet {
            exchange: _,
            from: _,
            to: _,
            kind: _,
            rows: _,
        } = self;
    }
}

impl Model for Packet {
    ghost use Rattle.vx_ports.specs.Packets.{PacketView, HasFew};
    ghost use Rattle.vx_ports.specs.Seen.{content_of};

    ghost Value = { PacketView };

    ghost view = { λ p. record { exchange = p.exchange; from = p.from; to = p.to; types = p.rows.types; content = content_of p.kind p.rows.rows } };

    ghost invariant = { λ p. HasFew (content_of p.kind p.rows.rows) };
}

impl Packet {
    ghost use Rattle.std.specs.Prelude.{◌≡◌, ◌<◌, ◌≤◌, [], length};
    ghost use Rattle.vx_ports.specs.Packets.{brings, closes, content_rows, FitsContent};
    ghost use Rattle.vx_ports.specs.Seen.{ending_content};
    ghost use Rattle.vx_ports.specs.Bodies.{IsBody};

    /// A packet of rows: 1 to 4,096.
    pub fn of_rows(exchange: u32, from: u32, to: u32, rows: Rows) -> Packet
        requires some { 0 < length rows.rows }
        requires few { length rows.rows ≤ max_packet_rows }
        ensures { result ≡ record { exchange = exchange; from = from; to = to; types = rows.types; content = brings rows.rows } }
    {
        Packet {
            exchange,
            from,
            to,
            kind: PacketKind::Rows,
            rows,
        }
    }

    /// A packet that closes a stream of rows of these types; `none` has no rows.
    pub fn closing(exchange: u32, from: u32, to: u32, ending: StreamEnd, none: Rows) -> Packet
        requires { none.rows ≡ [] }
        ensures { result ≡ record { exchange = exchange; from = from; to = to; types = none.types; content = ending_content ending } }
    {
        let kind = match ending {
            StreamEnd::Last => PacketKind::Last,
            StreamEnd::Fault => PacketKind::Fault,
        };
        Packet {
            exchange,
            from,
            to,
            kind,
            rows: none,
        }
    }

    /// The node number of its exchange.
    pub fn exchange(&self) -> u32
        ensures { result ≡ self.now.exchange }
    {
        self.exchange
    }

    /// The place of its producer.
    pub fn from(&self) -> u32
        ensures { result ≡ self.now.from }
    {
        self.from
    }

    /// The place of its consumer.
    pub fn to(&self) -> u32
        ensures { result ≡ self.now.to }
    {
        self.to
    }

    /// The types of its rows, which are 1 to 4,096 and fit them, if it has any.
    pub fn types(&self) -> &[ColType]
        ensures types { result.now ≡ self.now.types }
        ensures fit { FitsContent self.now.types self.now.content }
    {
        self.rows.types()
    }

    /// Whether it closes the stream.
    pub fn is_closing(&self) -> bool
        ensures { result ≡ closes self.now.content }
    {
        match self.kind {
            PacketKind::Rows => false,
            PacketKind::Last => true,
            PacketKind::Fault => true,
        }
    }

    /// How many rows it has: none where it closes the stream.
    pub fn row_count(&self) -> usize
        ensures { result ≡ length (content_rows self.now.content) }
    {
        match self.kind {
            PacketKind::Rows => self.rows.len(),
            PacketKind::Last | PacketKind::Fault => 0,
        }
    }

    /// Its rows, or how it ends the stream.
    pub fn into_body(self) -> Body
        ensures { IsBody self result }
    {
        let Packet {
            exchange: _,
            from: _,
            to: _,
            kind,
            rows,
        } = self;
        match kind {
            PacketKind::Rows => Body::Rows(rows),
            PacketKind::Last => Body::End(StreamEnd::Last),
            PacketKind::Fault => Body::End(StreamEnd::Fault),
        }
    }
}
