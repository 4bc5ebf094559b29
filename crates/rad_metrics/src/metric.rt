//! The list of all metrics.

ghost use Rattle.rad_metrics.specs.Rows.{HaveOwnNames, HaveRightNames, HaveRightKinds, HavePlainHelps, CountsEachOnce, AreInOrder};

use crate::counted::Counted;
use crate::family::{Family, Kind};
use crate::home_metric::HomeMetric;
use crate::home_times::Timed;
use crate::ledger_metrics::LedgerMetric;
use crate::program_metrics::ProgramMetric;
use crate::socket_numbers::SocketMetric;
use crate::spool_metrics::SpoolMetric;

/// A metric. [`metrics`] has the name and the help text of each.
#[derive(Clone, Copy)]
pub enum Metric {
    Program(ProgramMetric),
    Counted(Counted),
    Realms,
    Home(HomeMetric),
    Timed(Timed),
    Socket(SocketMetric),
    Ledger(LedgerMetric),
    LedgerClients,
    Spool(SpoolMetric),
}

/// Makes a list of families: of each metric, its kind, its name and its help text.
macro_rules! families {
    ($($metric:expr => $kind:ident($name:literal, $help:literal),)+) => {
        &[$(Family { metric: $metric, kind: Kind::$kind, name: $name, help: $help },)+]
    };
}

/// Returns the families of all metrics, in the order in which they are written. Those that count events are in the order
/// of [`Counted`].
pub fn metrics() -> &'static [Family]
    ensures own_names { HaveOwnNames result.now }
    ensures right_names { HaveRightNames result.now }
    ensures right_kinds { HaveRightKinds result.now }
    ensures plain_helps { HavePlainHelps result.now }
    ensures one_row { CountsEachOnce result.now }
    ensures in_order { AreInOrder result.now }
{
    families! {
        Metric::Counted(Counted::Dropped) => Counter("dropped_total", "Datagrams at the clients' sockets that were dropped."),
        Metric::Counted(Counted::Refused) => Counter("refused_total", "Requests that were refused."),
        Metric::Counted(Counted::Unheard) => Counter("unheard_total", "Datagrams at a home server's sockets that were dropped."),
        Metric::Counted(Counted::SendFaults) => Counter("send_faults_total", "Sends that failed."),
        Metric::Counted(Counted::ReceiveFaults) => Counter("receive_faults_total", "Receives that failed."),
        Metric::Counted(Counted::WentDown) => Counter("downs_total", "How often the home server was marked down."),
        Metric::Counted(Counted::Sent) => Counter("sent_total", "Accounting-Requests for the home server, for the first time and again, also those that the system refused to send."),
        Metric::Counted(Counted::Probed) => Counter("probes_total", "Status-Servers sent to the home server."),
        Metric::Counted(Counted::Cut) => Counter("cut_total", "Answered requests that were removed from the book."),
        Metric::Counted(Counted::Marked) => Counter("marked_total", "Requests for the home server that arrived with a Proxy-State of this proxy's form."),
        Metric::Program(ProgramMetric::BuildInfo) => Gauge("build_info", "The version of the running program."),
        Metric::Program(ProgramMetric::Start) => Gauge("start_time_seconds", "When the program started, in seconds since 1970."),
        Metric::Program(ProgramMetric::Report) => Gauge("report_time_seconds", "When these metrics were collected, in seconds since 1970."),
        Metric::Program(ProgramMetric::Strangers) => Counter("strangers_total", "Datagrams from senders that are not clients."),
        Metric::Program(ProgramMetric::ProcessStart) => Gauge("process_start_time_seconds", "When the program started, in seconds since 1970."),
        Metric::Program(ProgramMetric::ProcessResident) => Gauge("process_resident_memory_bytes", "The memory of the program that is not swapped out."),
        Metric::Program(ProgramMetric::ProcessDescriptors) => Gauge("process_open_fds", "The file descriptors that the program has open."),
        Metric::Program(ProgramMetric::ProcessCpu) => Counter("process_cpu_seconds_total", "The processor time of the program, its own and the system's for it."),
        Metric::Counted(Counted::ClientReceived) => Counter("client_received_total", "Datagrams received from the client."),
        Metric::Counted(Counted::ClientAccepted) => Counter("client_accepted_total", "New requests from the client that were accepted."),
        Metric::Counted(Counted::ClientRepeats) => Counter("client_repeats_total", "Retransmitted requests from the client: unanswered, or answered less than a span ago."),
        Metric::Counted(Counted::ClientResponses) => Counter("client_responses_total", "Responses to the client, also to repeats and to Status-Servers, and those that the system refused to send."),
        Metric::Counted(Counted::ClientRefused) => Counter("client_refused_total", "New requests from the client that were refused."),
        Metric::Counted(Counted::ClientDropped) => Counter("client_dropped_total", "Datagrams from the client that were dropped."),
        Metric::Realms => Counter("realm_requests_total", "Requests for the realm: new ones, repeats, and those that were refused."),
        Metric::Home(HomeMetric::BookLimit) => Gauge("book_limit", "The most requests that the book may hold."),
        Metric::Home(HomeMetric::QueueLimit) => Gauge("queue_limit", "The most requests that may wait to be sent."),
        Metric::Home(HomeMetric::WindowLimit) => Gauge("window_limit", "The most requests that may be outstanding."),
        Metric::Home(HomeMetric::RingLimit) => Gauge("ring_limit", "The most responses that the ring may hold."),
        Metric::Home(HomeMetric::Span) => Gauge("span_seconds", "How long after its answer a retransmitted request is answered again."),
        Metric::Home(HomeMetric::Up) => Gauge("home_up", "Whether the home server is marked up."),
        Metric::Home(HomeMetric::Since) => Gauge("home_since_time_seconds", "Since when the home server is marked up or down, in seconds since 1970."),
        Metric::Home(HomeMetric::Down) => Counter("home_down_seconds_total", "How long the home server was marked down since the start."),
        Metric::Home(HomeMetric::Told) => Gauge("home_report_time_seconds", "When the lane reported these metrics, in seconds since 1970."),
        Metric::Home(HomeMetric::Draining) => Gauge("draining", "Whether the lane accepts no new requests."),
        Metric::Home(HomeMetric::Accepted) => Counter("accepted_total", "Requests accepted since the start."),
        Metric::Home(HomeMetric::Answered) => Counter("answered_total", "Requests answered by the home server since the start."),
        Metric::Home(HomeMetric::Queued) => Gauge("queued", "Requests that wait to be sent."),
        Metric::Home(HomeMetric::Outstanding) => Gauge("outstanding", "Requests sent and not answered."),
        Metric::Home(HomeMetric::Held) => Gauge("book", "Requests that the book holds."),
        Metric::Home(HomeMetric::Resent) => Counter("resent_total", "Accounting-Requests sent to the home server again."),
        Metric::Home(HomeMetric::OldestQueued) => Gauge("oldest_queued_age_seconds", "How long the first request of the queue has waited."),
        Metric::Home(HomeMetric::OldestOutstanding) => Gauge("oldest_outstanding_age_seconds", "How long ago the first request that is not answered was sent."),
        Metric::Home(HomeMetric::OldestHeld) => Gauge("oldest_held_age_seconds", "How long ago the first request in the book was accepted."),
        Metric::Home(HomeMetric::LastAnswer) => Gauge("last_answer_time_seconds", "When the home server last answered a request, in seconds since 1970, and 0 before that."),
        Metric::Counted(Counted::WentUp) => Counter("ups_total", "How often the home server was marked up again."),
        Metric::Timed(Timed::Replies) => Histogram("reply_seconds", "From the first sending of a request to the home server's reply."),
        Metric::Timed(Timed::Responses) => Histogram("response_seconds", "From the acceptance of a request to the response to the client."),
        Metric::Socket(SocketMetric::Buffer) => Gauge("socket_buffer_bytes", "The receive buffer that the system granted to the socket."),
        Metric::Socket(SocketMetric::Dropped) => Counter("socket_drops_total", "Datagrams that the system dropped because the socket's receive buffer was full."),
        Metric::Ledger(LedgerMetric::Written) => Counter("ledger_written_total", "Entries that were written to the ledger."),
        Metric::Ledger(LedgerMetric::Waiting) => Gauge("ledger_waiting", "Entries that wait to be written to the ledger."),
        Metric::Ledger(LedgerMetric::Dropped) => Counter("ledger_dropped_total", "Entries that are missing from the ledger because too many waited."),
        Metric::Ledger(LedgerMetric::Lost) => Counter("ledger_lost_total", "Entries that were written to a file of the ledger that is gone."),
        Metric::Ledger(LedgerMetric::Age) => Gauge("ledger_oldest_waiting_seconds", "The age of the oldest entry that waits."),
        Metric::Ledger(LedgerMetric::Unsynced) => Gauge("ledger_unsynced_seconds", "The age of the oldest part of the ledger that is not synced."),
        Metric::LedgerClients => Counter("client_ledger_dropped_total", "Entries of the client that are missing from the ledger because too many waited."),
        Metric::Spool(SpoolMetric::Open) => Gauge("spool_open_requests", "Requests in the spool that are not answered."),
        Metric::Spool(SpoolMetric::Unsynced) => Gauge("spool_unsynced_requests", "Those of them that are not on disk yet."),
        Metric::Spool(SpoolMetric::Behind) => Gauge("spool_unsynced_seconds", "How long ago all of them were on disk."),
        Metric::Spool(SpoolMetric::Age) => Gauge("spool_oldest_seconds", "How long ago the oldest of them came in, and 0 without one."),
        Metric::Spool(SpoolMetric::Octets) => Gauge("spool_bytes", "The size of the spool's files."),
        Metric::Spool(SpoolMetric::Lost) => Counter("spool_lost_total", "Requests and responses that found no room on their way to the spool."),
        Metric::Spool(SpoolMetric::Written) => Counter("spool_written_total", "Entries that were written to the spool."),
        Metric::Spool(SpoolMetric::Faults) => Counter("spool_faults_total", "How often the spool could not be written."),
        Metric::Spool(SpoolMetric::Failing) => Gauge("spool_failing", "Whether the spool can't be written."),
        Metric::Spool(SpoolMetric::Dropped) => Gauge("spool_dropped_requests", "Requests of earlier runs that no longer pass the checks."),
        Metric::Spool(SpoolMetric::Held) => Counter("spool_held_total", "Datagrams that waited for requests of earlier runs."),
    }
}
