//! The schedules that are played, by their names in data/.

/// The schedules that are played.
pub const SCHEDULES: [&str; 20] = [
    "schedules/empty.schedule",
    "schedules/nothing_happens.schedule",
    "schedules/a_part_of_a_word.schedule",
    "schedules/a_put_without_its_last_beat.schedule",
    "schedules/signed_and_unsigned_minimum.schedule",
    "schedules/a_sum_that_wraps.schedule",
    "schedules/a_writer_becomes_a_reader.schedule",
    "schedules/a_release_races_with_a_probe.schedule",
    "schedules/a_bridge_with_a_plain_client.schedule",
    "schedules/two_readers_want_to_write.schedule",
    "schedules/a_whole_block_beside_an_upgrade.schedule",
    "schedules/acquired_again_before_the_ack.schedule",
    "schedules/sixteen_readers_and_a_put.schedule",
    "schedules/busy_clients.schedule",
    "schedules/all_channels_at_once.schedule",
    "schedules/four_bytes_a_beat.schedule",
    "schedules/sixteen_bytes_a_beat.schedule",
    "schedules/a_sum_of_two_beats.schedule",
    "schedules/the_only_reader_may_write.schedule",
    "schedules/the_only_reader_releases.schedule",
];

/// The schedules that are played with a trace of their beats.
pub const TRACED: [&str; 4] = [
    "schedules/nothing_happens.schedule",
    "schedules/no_event.schedule",
    "schedules/third_version.schedule",
    "schedules/a_writer_becomes_a_reader.schedule",
];
