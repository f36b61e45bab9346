//! Deliveries of small samples, worked out from the rules.

/// The delivery of seed 0, one trip and three stops. The draws 0, 21468 and 9988 with 22117 skip stop 1, leave stop 2
/// on time and make stop 3 seven minutes and a second late.
pub static A_SKIP_AND_A_DELAY: &[u8] = b"{\"ServiceDelivery\":{\"EstimatedTimetableDelivery\":[\
      {\"EstimatedJourneyVersionFrame\":[{\"EstimatedVehicleJourney\":[\
      {\"EstimatedCalls\":{\"EstimatedCall\":[\
      {\"Cancellation\":true,\"Order\":1,\"StopPointRef\":\"P1\"},\
      {\"ExpectedArrivalTime\":\"2024-05-01T06:02:00Z\",\
      \"ExpectedDepartureTime\":\"2024-05-01T06:02:00Z\",\"Order\":2,\"StopPointRef\":\"P2\"},\
      {\"ExpectedArrivalTime\":\"2024-05-01T06:11:01Z\",\
      \"ExpectedDepartureTime\":\"2024-05-01T06:11:01Z\",\"Order\":3,\"StopPointRef\":\"P3\"}]\
      },\"FramedVehicleJourneyRef\":{\"DataFrameRef\":\"2024-05-01\",\"DatedVehicleJourneyRef\":\"G0\"},\
      \"RecordedAtTime\":\"2024-05-01T00:00:00Z\"}]}]}]}}";

/// That of seed 1, two trips and two stops: by the draws 16838, 5758, 10113 and 17515 the first call of G1 is left out.
pub static A_CALL_LEFT_OUT: &[u8] = b"{\"ServiceDelivery\":{\"EstimatedTimetableDelivery\":[\
      {\"EstimatedJourneyVersionFrame\":[{\"EstimatedVehicleJourney\":[\
      {\"EstimatedCalls\":{\"EstimatedCall\":[\
      {\"ExpectedArrivalTime\":\"2024-05-01T06:00:00Z\",\
      \"ExpectedDepartureTime\":\"2024-05-01T06:00:00Z\",\"Order\":1,\"StopPointRef\":\"P1\"},\
      {\"ExpectedArrivalTime\":\"2024-05-01T06:02:00Z\",\
      \"ExpectedDepartureTime\":\"2024-05-01T06:02:00Z\",\"Order\":2,\"StopPointRef\":\"P2\"}]\
      },\"FramedVehicleJourneyRef\":{\"DataFrameRef\":\"2024-05-01\",\"DatedVehicleJourneyRef\":\"G0\"},\
      \"RecordedAtTime\":\"2024-05-01T00:00:00Z\"},\
      {\"EstimatedCalls\":{\"EstimatedCall\":[\
      {\"ExpectedArrivalTime\":\"2024-05-01T06:03:00Z\",\
      \"ExpectedDepartureTime\":\"2024-05-01T06:03:00Z\",\"Order\":2,\"StopPointRef\":\"P2\"}]\
      },\"FramedVehicleJourneyRef\":{\"DataFrameRef\":\"2024-05-01\",\"DatedVehicleJourneyRef\":\"G1\"},\
      \"RecordedAtTime\":\"2024-05-01T00:00:00Z\"}]}]}]}}";

/// That of seed 3, two trips and two stops: 17747 and 7107 make G0 seven minutes and sixteen seconds late at both
/// stops, and G1 begins on time.
pub static A_DELAY_CARRIED_ON: &[u8] = b"{\"ServiceDelivery\":{\"EstimatedTimetableDelivery\":[\
      {\"EstimatedJourneyVersionFrame\":[{\"EstimatedVehicleJourney\":[\
      {\"EstimatedCalls\":{\"EstimatedCall\":[\
      {\"ExpectedArrivalTime\":\"2024-05-01T06:07:16Z\",\
      \"ExpectedDepartureTime\":\"2024-05-01T06:07:16Z\",\"Order\":1,\"StopPointRef\":\"P1\"},\
      {\"ExpectedArrivalTime\":\"2024-05-01T06:09:16Z\",\
      \"ExpectedDepartureTime\":\"2024-05-01T06:09:16Z\",\"Order\":2,\"StopPointRef\":\"P2\"}]\
      },\"FramedVehicleJourneyRef\":{\"DataFrameRef\":\"2024-05-01\",\"DatedVehicleJourneyRef\":\"G0\"},\
      \"RecordedAtTime\":\"2024-05-01T00:00:00Z\"},\
      {\"EstimatedCalls\":{\"EstimatedCall\":[\
      {\"ExpectedArrivalTime\":\"2024-05-01T06:01:00Z\",\
      \"ExpectedDepartureTime\":\"2024-05-01T06:01:00Z\",\"Order\":1,\"StopPointRef\":\"P1\"},\
      {\"ExpectedArrivalTime\":\"2024-05-01T06:03:00Z\",\
      \"ExpectedDepartureTime\":\"2024-05-01T06:03:00Z\",\"Order\":2,\"StopPointRef\":\"P2\"}]\
      },\"FramedVehicleJourneyRef\":{\"DataFrameRef\":\"2024-05-01\",\"DatedVehicleJourneyRef\":\"G1\"},\
      \"RecordedAtTime\":\"2024-05-01T00:00:00Z\"}]}]}]}}";
