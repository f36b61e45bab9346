//! The files of a sample of two trips and three stops, worked out from the rules.

pub static AGENCY: &[u8] = b"agency_timezone\n\
      UTC\n";

pub static STOPS: &[u8] = b"stop_id\n\
      P1\n\
      P2\n\
      P3\n";

pub static ROUTES: &[u8] = b"route_id\n\
      R\n";

pub static TRIPS: &[u8] = b"trip_id,route_id,service_id\n\
      G0,R,S\n\
      G1,R,S\n";

pub static CALENDAR: &[u8] =
    b"service_id,monday,tuesday,wednesday,thursday,friday,saturday,sunday,start_date,end_date\n\
      S,1,1,1,1,1,1,1,20240101,20241231\n";

pub static STOP_TIMES: &[u8] = b"trip_id,stop_sequence,stop_id,arrival_time,departure_time\n\
      G0,1,P1,06:00:00,06:00:00\n\
      G0,2,P2,06:02:00,06:02:00\n\
      G0,3,P3,06:04:00,06:04:00\n\
      G1,1,P1,06:01:00,06:01:00\n\
      G1,2,P2,06:03:00,06:03:00\n\
      G1,3,P3,06:05:00,06:05:00\n";
