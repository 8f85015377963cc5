// The 55 names of the mask's bits.
ghost use Rattle.names.specs.InnerWalk.{Known};

// The names of the mask's bits 1 to 55 in order, joined by commas as the extra names are.
// Kept: one run joined by commas and not an array of names: a host lends the extra names so, and one iterator (Names) goes through both.
const NAMES: [u8; 632] = *b"Host,\
    User-Agent,\
    Accept,\
    Connection,\
    Accept-Encoding,\
    Accept-Language,\
    Referer,\
    Cookie,\
    Accept-Charset,\
    If-Modified-Since,\
    If-None-Match,\
    Range,\
    Date,\
    Authorization,\
    Cache-Control,\
    Origin,\
    Pragma,\
    DNT,\
    X-Csrftoken,\
    Sec-WebSocket-Version,\
    Sec-WebSocket-Protocol,\
    Sec-WebSocket-Key,\
    Sec-WebSocket-Extensions,\
    TE,\
    X-Requested-With,\
    X-Forwarded-For,\
    X-Forwarded-Proto,\
    Forwarded,\
    From,\
    HTTP2-Settings,\
    Upgrade,\
    Proxy-Authorization,\
    If,\
    If-Match,\
    If-Range,\
    If-Unmodified-Since,\
    Max-Forwards,\
    Prefer,\
    Via,\
    ALPN,\
    Expect,\
    Alt-Used,\
    CalDAV-Timezones,\
    Schedule-Reply,\
    If-Schedule-Tag-Match,\
    Destination,\
    Lock-Token,\
    Timeout,\
    Ordering-Type,\
    Overwrite,\
    Position,\
    Depth,\
    SLUG,\
    Trailer,\
    MIME-Version";

// The 55 names, joined by commas.
#[derive(Clone, Copy)]
pub struct KnownNames {
    pub run: [u8; 632],
    pub ghost known: { Known run },
}

pub fn known() -> KnownNames {
    KnownNames { run: NAMES }
}
